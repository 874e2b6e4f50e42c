// OBS written: a header and up to fifteen observations into a lent buffer.
// Read specs/ObsWriter.antt (what it answers and leaves), then specs/ObsFaithful.antt (what is written is found and read back).
#![tactic(auto)]

mod obs_write;

pub use obs_write::write_obs;
