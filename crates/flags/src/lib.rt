// What ranged fields of 003's navigation messages may hold, and what their flags mean.
// Read specs/Range.antt (document 01's ranges) and specs/Flags.antt (the bits of flags; the fix modes of the two positions differ).
#![tactic(auto)]

mod flags;
mod range;

pub use flags::{
    Fix, baseline_fix, pos_ecef_fix, pos_llh_above_sea, pos_llh_fix, pos_llh_raim_available,
    pos_llh_raim_repaired, raim_available, raim_repaired,
};
pub use range::{fix_allowed, ns_allowed};
