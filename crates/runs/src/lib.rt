// Runs of packets in counter order: what is open, and the step that a packet makes. Nothing here knows of frames, senders or rosters.
// Epochs were such runs before document 02's P7; collators now take the step of `groups`, and this one stays for the judge of exports (P12).
// Read specs/Run.antt (the step), specs/InWords.antt (an epoch in document 01's words).
#![tactic(auto)]

mod running;

pub use running::{Part, Stepped, step};
