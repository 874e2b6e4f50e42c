// What a call comes to by its contract: the function of its inputs that a promise speaks of. Nothing runs here. Read specs/Gives.antt.
#![tactic(auto)]
