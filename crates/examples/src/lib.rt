// Document 01's worked examples as one table, and the five idle programs that are shut out. Nothing runs here.
// Read specs/Examples.antt (`all_hold`), specs/Idle.antt (`shut_out`) and specs/IdleLinked.antt (`linked_shut_out`).
#![tactic(auto)]
