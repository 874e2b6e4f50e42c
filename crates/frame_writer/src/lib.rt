// Frames written into a lent buffer, and what is promised of every message that is written as one.
// Read specs/Writer.antt (what a writer answers and leaves), then specs/Faithful.antt (a record written is found and read back).
// write_frame and plan are entry points, refused by number; the others are inner parts: total, and seal is whole or nothing.
#![tactic(auto)]

mod message;
mod write;

pub use message::{FixedMessage, read_message, write_message};
pub use write::{hand_on, plan, seal, write_frame};
