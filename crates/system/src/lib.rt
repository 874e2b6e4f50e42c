// The settings and system messages of 003, sections 6.4 and 6.5.
// Read the descriptions, a line of document 01 each; specs/Empty.antt has the two messages without a payload, specs/HeartbeatFlags.antt the bits
// that 003 names.
#![tactic(auto)]

mod empty;
mod flags;
mod heartbeat;
mod settings;
mod startup;

pub use empty::{ReadByIndexDone, SettingsSave};
pub use flags::{external_antenna, io_error, nap_error, system_error};
pub use heartbeat::Heartbeat;
pub use settings::ReadByIndexReq;
pub use startup::Startup;
