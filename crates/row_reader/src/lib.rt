// A payload's fields as a row of numbers of 64 bits, by its type's digits; and one observation's.
// Read specs/ReadRow.antt first.
#![tactic(auto)]

mod fill;
mod observation_row;
mod row;

pub use observation_row::read_observation_row;
pub use row::read_row;
