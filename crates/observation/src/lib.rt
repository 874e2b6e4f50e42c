// OBS, of 003, section 6.3: its header and its observations, read.
// Read specs/Edition.antt (an edition, its message, the first edition's fields) and specs/Obs.antt.
#![tactic(auto)]

mod entry;
mod obs;

pub use entry::{Observation, read_observation, read_observation_of};
pub use obs::{EACH, HEAD, MOST, Obs, is_obs, is_obs_length, read_obs};
