// Groups of packets of one key, in whatever order they come: what is open, and the step that a packet makes. Nothing here knows of frames,
// senders or rosters.
// Read specs/InWords.antt (an epoch in document 02's words) and specs/Group.antt (the step).
#![tactic(auto)]

mod grouping;

pub use grouping::{Part, Stepped, step};
