// What open reading has handed out stays, while a capture grows (document 02, P4). Nothing runs here: theorems over the calls of `frames`.
// Read specs/Stays.antt (of the steps and of what a call answers), then specs/Watching.antt (of calls, by the contract of `next`).
#![tactic(auto)]
