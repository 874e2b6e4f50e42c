// The baselines, velocities and heading of 003, section 6.2: their records, as messages that frame_writer reads and writes.
// Read the description of each message in specs/, which reads like its line of document 01.
#![tactic(auto)]

mod ecef;
mod heading;
mod ned;

pub use ecef::{BaselineEcef, EcefVector, VelEcef};
pub use heading::BaselineHeading;
pub use ned::{BaselineNed, NedVector, VelNed};
