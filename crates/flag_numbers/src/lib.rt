// A message's flags by its type. Read specs/Flagged.antt: a type that has no such flag is refused, else it is the flag by its own table.
#![tactic(auto)]

mod flagging;

pub use flagging::{above_sea_of, fix_of, raim_available_of, raim_repaired_of};
