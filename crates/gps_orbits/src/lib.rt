// The ephemeris of a GPS satellite, of 003, section 6.3. No field has a range.
// Read specs/EphemerisGps.antt: it is its parts put together (layouts/specs/Together.antt), and is read and written part after part.
#![tactic(auto)]

mod clock;
mod elements;
mod ephemeris_gps;

pub use clock::Clock;
pub use elements::{Ellipse, Harmonics, Plane};
pub use ephemeris_gps::EphemerisGps;
