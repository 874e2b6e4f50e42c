// Frames found in a lent capture by document 01's five lines. Everything here is total: a position past the end is finished.
// Read specs/Frame.antt (a frame's bytes), specs/Decides.antt (the five lines), specs/Step.antt (the same as a function), specs/Reading.antt
// (whole readings and their counts), specs/Cursors.antt; specs/Apart.antt, a frame in two buffers.
#![tactic(auto)]

mod apart;
mod cursor;
mod junk;
mod step;

pub use apart::frame_crc;
pub use cursor::{Counts, Cursor, Next, Reached, totals};
pub use step::{Frame, Step, payload, step_at};
