// The static library that C and Rust link: each function of `exports` under its own name, over numbers, lent slices and lent numbers. A function
// states the clauses of its namesake in `exports`, word for word (tests/signatures.py looks), and calls it. None has a `requires`.
// A crate is a library or a static library, not both, so `exports` stays the library that other crates rest on.
#![tactic(auto)]

mod answering;
mod beating;
mod collating;
mod flagging;
mod indexing;
mod phasing;
mod reading;
mod rowing;
mod texting;
mod versioning;
mod writing;

pub use answering::{sbp_answer, sbp_crc, sbp_frame_crc};
pub use beating::{sbp_external_antenna, sbp_io_error, sbp_nap_error, sbp_system_error};
pub use collating::{sbp_collator, sbp_enlist, sbp_feed, sbp_growing};
pub use flagging::{sbp_above_sea, sbp_fix, sbp_raim_available, sbp_raim_repaired};
pub use indexing::{sbp_count, sbp_extend, sbp_first, sbp_index};
pub use phasing::{sbp_carrier_phase, sbp_phase_parts};
pub use reading::{sbp_next, sbp_totals};
pub use rowing::{sbp_observation, sbp_read};
pub use texting::sbp_list;
pub use versioning::sbp_version;
pub use writing::{sbp_write, sbp_write_frame, sbp_write_log, sbp_write_obs};
