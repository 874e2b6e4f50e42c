// Where the parts of a collator's bytes begin and how many bytes a seat and a place take: as specs/State.antt has it.
pub const SEATS_AT: usize = 1;

pub const SEAT_SIZE: usize = 2;

pub const PLACES_AT: usize = SEATS_AT + 8 * SEAT_SIZE;

// Of a place: where each of its numbers begins, which is where the one before it ends.
pub(crate) const OPENED_AT: usize = 0;

pub(crate) const TOW_AT: usize = OPENED_AT + 1;

pub(crate) const WN_AT: usize = TOW_AT + 4;

pub(crate) const N_AT: usize = WN_AT + 2;

pub(crate) const COME_AT: usize = N_AT + 1;

pub(crate) const TOTAL_AT: usize = COME_AT + 2;

pub const SLOT_SIZE: usize = TOTAL_AT + 2;
