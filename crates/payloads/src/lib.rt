// What a type number means: the answer 0, 21, 22 or 23 to any type and payload, and its fields. What a payload is read as is `readings`'.
// Read specs/Payloads.antt first: the messages by their descriptions, and the ordered tests of any type and payload; then specs/Checks.antt,
// document 01's types, lengths and ranges as numbers, which are proved to agree with the descriptions.
#![tactic(auto)]

ghost use Rattle.std.specs.Prelude.{◌≡◌};
ghost use Rattle.refusals.specs.Refusals.{zero_or};
ghost use Rattle.refusals.specs.Numbers.{answer_of};
ghost use Rattle.payloads.specs.Payloads.{answer_for};
ghost use Rattle.payloads.specs.Types.{type_number};

mod check;
mod kind;
mod place;
mod shape;

pub use kind::{MessageType, message_type};
pub use place::{MESSAGES, place_of};
use refusals::Refusal;
pub use shape::{shape_of, shape_of_type};

// Every message that has a reading. The observations of an Obs and the text of a Log stay in the payload: read_observation and
// log_text give them.
#[derive(Clone, Copy)]
pub enum Message {
    GpsTime(time_and_dops::GpsTime),
    Dops(time_and_dops::Dops),
    PosEcef(positions::PosEcef),
    PosLlh(positions::PosLlh),
    BaselineEcef(baselines::EcefVector),
    VelEcef(baselines::EcefVector),
    BaselineNed(baselines::NedVector),
    VelNed(baselines::NedVector),
    BaselineHeading(baselines::BaselineHeading),
    BasePosLlh(base_positions::BasePosLlh),
    BasePosEcef(base_positions::BasePosEcef),
    EphemerisGps(gps_orbits::EphemerisGps),
    EphemerisSbas(orbits::EphemerisSbas),
    EphemerisGlo(orbits::EphemerisGlo),
    Iono(atmosphere::Iono),
    SvConfigurationGps(atmosphere::SvConfigurationGps),
    GroupDelay(atmosphere::GroupDelay),
    Obs(observation::Obs),
    Log(logs::Log),
    SettingsSave,
    ReadByIndexDone,
    ReadByIndexReq(system::ReadByIndexReq),
    Startup(system::Startup),
    Heartbeat(system::Heartbeat),
}

// 22 or 23 for a payload that the message does not take.
pub fn accept(message: MessageType, payload: &[u8]) -> Result<(), Refusal>
    ensures { zero_or (answer_of result) ≡ answer_for (type_number message) payload.now }
{
    check::tested(check::check_of(message), payload)
}

// 21 for a type without a reading, then as its message.
pub fn answer(kind: u16, payload: &[u8]) -> Result<(), Refusal>
    ensures { zero_or (answer_of result) ≡ answer_for kind payload.now }
{
    accept(message_type(kind)?, payload)
}
