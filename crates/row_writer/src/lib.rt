// Frames written from rows of numbers of 64 bits.
// Read specs/WriteRow.antt first, then specs/WriteObsRow.antt; specs/WritesTyped.antt says that this is what the typed writers write.
#![tactic(auto)]

mod obs;
mod row;
mod send;

pub use obs::write_obs_row;
pub use row::write_row;
