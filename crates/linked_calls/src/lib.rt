// Every function that C and Rust link does what is promised of it, by its own contract. Nothing runs here. Read specs/LinkedCalls.antt.
#![tactic(auto)]
