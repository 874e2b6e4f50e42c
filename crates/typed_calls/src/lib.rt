// Every typed reader and writer does what is promised of it, by its own contract. Nothing runs here. Read specs/TypedCalls.antt.
#![tactic(auto)]
