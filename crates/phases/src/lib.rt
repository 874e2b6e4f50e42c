// The carrier phase of an observation: from its two parts, and back. Read specs/Phase.antt, then specs/Phased.antt.
#![tactic(auto)]

mod phase;

pub use phase::{Phase, carrier_phase, phase_parts};
