// What each call of an index comes to by its own contract: theorems alone. Read specs/IndexCalls.antt.
#![tactic(auto)]
