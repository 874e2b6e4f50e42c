// Parts of which the messages of 003, section 6.3, are made: a time, at any offset that a byte holds, and what every ephemeris begins with.
// Read specs/TimeOfWeek.antt and specs/Common.antt. All functions are inner parts: total.
#![tactic(auto)]

mod common;
mod satellite;
mod time_of_week;

pub use common::EphemerisCommon;
pub use satellite::Satellite;
pub use time_of_week::TimeOfWeek;
