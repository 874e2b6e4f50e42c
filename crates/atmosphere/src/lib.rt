// What goes with the ephemerides of 003, section 6.3: the ionosphere, L2C capability, group delays. No field has a range.
// Read each message in a file of its own; it is its parts put together (layouts/specs/Together.antt), a time first.
#![tactic(auto)]

mod group_delay;
mod iono;
mod sv_configuration_gps;

pub use group_delay::GroupDelay;
pub use iono::{Cubic, Iono};
pub use sv_configuration_gps::SvConfigurationGps;
