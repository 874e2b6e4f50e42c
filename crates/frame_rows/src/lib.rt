// The next frame of a capture, and the counts of a whole one, as rows of numbers in a lent buffer.
// Read specs/Found.antt, specs/Totals.antt, and specs/Shown.antt, each number where link/include/sbp.h has it.
#![tactic(auto)]

mod counting;
mod reading;
mod sizes;

pub use counting::totals_row;
pub use reading::{Found, FoundRow, next_row};
