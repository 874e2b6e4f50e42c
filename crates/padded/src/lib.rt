// A text in bytes with zeros after it. Read specs/Padded.antt. All are inner parts: total, and store_zeros is whole or nothing.
#![tactic(auto)]

mod padded;

pub use padded::{all_zero, no_zero, store_zeros, text_length};
