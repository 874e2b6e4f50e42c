// The GPS time and the dilutions of precision, of 003, section 6.2: their records, as messages that frame_writer reads and writes.
// Read the description of each message in specs/, which reads like its line of document 01.
#![tactic(auto)]

mod dops;
mod gps_time;

pub use dops::Dops;
pub use gps_time::GpsTime;
