// A sender's place among the bytes of a collator, read and stored, and where the parts of these bytes begin.
// Read specs/State.antt (what the bytes stand for); proofs/States.antt has what they stand for once a place or a collator is stored.
#![tactic(auto)]

mod placing;
pub mod sizes;

pub use placing::{place_in, put_place};
