// An index beside a capture: an entry for each frame in a lent list, how far open reading came, and a count for each type that has a reading.
// Read specs/Index.antt: what an index is, and what extending and asking give. What it tells while a capture grows is `indexed`'s.
#![tactic(auto)]

mod asking;
mod entry;
mod extending;
mod index;
mod reading;
mod room;

pub use asking::{Found, count, first};
pub use entry::Entry;
pub use extending::extend;
pub use index::{Index, empty};
