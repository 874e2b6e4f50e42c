// An index in lent bytes, for callers that C and Rust link. The entries are `index`'s own. Read specs/Bytes.antt.
#![tactic(auto)]

mod keeping;
mod lent;

pub use keeping::index_in;
pub use lent::{count, extend, first, make};
