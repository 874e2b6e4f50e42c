// The two positions of 003, section 6.2: their records, as messages that frame_writer reads and writes.
// Read the description of each message in specs/, which reads like its line of document 01. What a description makes of bytes is in layouts'
// specs/Description.antt, what a ranged field may hold in flags' specs/Range.antt.
#![tactic(auto)]

mod pos_ecef;
mod pos_llh;

pub use pos_ecef::PosEcef;
pub use pos_llh::PosLlh;
