// What a collator in lent bytes tells from its making on: what the collators of `epochs` and `enlisting` come to. Nothing runs here.
// Read specs/Told.antt (a call's number and its report's row), then specs/Growing.antt (a roster that grows).
#![tactic(auto)]
