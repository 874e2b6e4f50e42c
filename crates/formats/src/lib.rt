// Runs of fields as numbers of 64 bits: what C and Rust have in a row, read from bytes and stored in them by digits that say each format.
// Read specs/Wide.antt (a value as a number of 64 bits) and specs/Digits.antt (a run of formats as one number) first.
// Nothing here has a requires, and all are inner parts: a byte or number past the end reads 0, a store that runs past the end changes nothing.
#![tactic(auto)]

mod digits;
mod fits;
mod read;
mod store;

pub use digits::{count, size};
pub use fits::run_fits;
pub use read::read_run;
pub use store::store_run;

// The digits of a message's first sixteen fields, of those after, and of what is repeated to its end; 0 for none.
#[derive(Clone, Copy)]
pub struct Shape {
    pub head: u64,
    pub more: u64,
    pub each: u64,
}
