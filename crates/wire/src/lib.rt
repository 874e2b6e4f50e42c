// Numbers and doubles in bytes, little-endian.
// Read specs/Number.antt, specs/Double.antt and specs/Value.antt; specs/Tabulated.antt has lists by their index.
// Nothing here has a requires, and all are inner parts: a byte past the end reads 0, a store that runs past the end changes nothing.
#![tactic(auto)]

mod bits;
mod double;
mod store;
mod value;

pub use bits::flag;
pub use double::Double;
pub use store::{room, store_bytes};
pub use value::InBytes;
