// A whole capture, read closed and fed frame by frame to a fresh collator. Read specs/Capture.antt.
#![tactic(auto)]

mod capturing;

pub use capturing::{Collated, collate};
