// The ephemerides of SBAS and GLONASS satellites, of 003, section 6.3. No field has a range.
// Read specs/Motion.antt first, the part that both have; then each message in a file of its own. A message is its parts put together
// (layouts/specs/Together.antt), and is read and written part after part.
#![tactic(auto)]

mod ephemeris_glo;
mod ephemeris_sbas;
mod motion;

pub use ephemeris_glo::EphemerisGlo;
pub use ephemeris_sbas::EphemerisSbas;
pub use motion::{Motion, Vector};
