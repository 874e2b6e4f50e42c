// The description of fields that every message is made of. Nothing runs here: sizes, decoding, storing and both round trips, once for all messages.
// Read specs/Field.antt (a run of fields), specs/Layout.antt (what a payload is made of), specs/Description.antt (a message), specs/Together.antt.
#![tactic(auto)]
