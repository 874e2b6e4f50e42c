// Rows of fields in lent bytes: one at the start of a buffer, several one after the other. Nothing runs here. Read specs/Lent.antt.
#![tactic(auto)]
