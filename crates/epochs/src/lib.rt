// The collator: observation epochs, sender by sender. Each listed sender has one place, and no frame of another sender touches it.
// Read specs/Search.antt (who is listed), specs/Collator.antt (step by step), specs/Epoch.antt (which frame ends an epoch, and what frames
// come to).
#![tactic(auto)]

mod collating;
mod recognising;
mod seating;

pub use collating::{Collator, FedCollator, Place, Report, outcome};
pub use seating::Roster;
