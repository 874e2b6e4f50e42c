// The two base positions of 003, section 6.3: their records, as messages that frame_writer reads and writes.
// Read specs/BasePosLlh.antt and specs/BasePosEcef.antt.
#![tactic(auto)]

mod base_pos_ecef;
mod base_pos_llh;

pub use base_pos_ecef::BasePosEcef;
pub use base_pos_llh::BasePosLlh;
