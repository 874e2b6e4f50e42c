// What C and Rust call: functions over numbers, lent slices and lent numbers, which `exports_c` offers to C under the same names. None has a
// `requires`.
// A refusal is document 01's number and writes nothing. A collator lives in lent bytes.
// Read specs/Text.antt; what each does is said in `linked_calls`. They only pass calls on: the row of a frame stands in `frame_rows`, flags by
// type in `flag_numbers`, carrier phases in `phases`, who sends in `frame_writer`, what a collator's bytes are in `states`, what rows of fields
// are in `row_reader` and `row_writer`.
#![tactic(auto)]

mod answering;
mod beating;
mod bits;
mod collating;
mod flagging;
mod indexing;
mod phasing;
mod reading;
mod rowing;
mod sizes;
mod texting;
mod versioning;
mod writing;

pub use answering::{sbp_answer, sbp_crc, sbp_frame_crc};
pub use beating::{sbp_external_antenna, sbp_io_error, sbp_nap_error, sbp_system_error};
pub use collating::{sbp_collator, sbp_enlist, sbp_feed, sbp_growing};
pub use flagging::{sbp_above_sea, sbp_fix, sbp_raim_available, sbp_raim_repaired};
pub use indexing::{sbp_count, sbp_extend, sbp_first, sbp_index};
pub use phasing::{sbp_carrier_phase, sbp_phase_parts};
pub use reading::{sbp_next, sbp_totals};
pub use rowing::{sbp_observation, sbp_read};
pub use texting::sbp_list;
pub use versioning::sbp_version;
pub use writing::{sbp_write, sbp_write_frame, sbp_write_log, sbp_write_obs};
