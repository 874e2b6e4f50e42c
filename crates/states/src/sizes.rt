// How many bytes the state and a report take: as specs/ has it, and link/include/sbp.h.
use places::sizes::{PLACES_AT, SLOT_SIZE};

pub(crate) const REPORT_SIZE: usize = 11;

pub(crate) const STATE_SIZE: usize = PLACES_AT + 8 * SLOT_SIZE;
