// How many bytes the rows take: as specs/ has it, and link/include/sbp.h.
pub(crate) const FOUND_SIZE: usize = 53;

pub(crate) const TOTALS_SIZE: usize = 32;
