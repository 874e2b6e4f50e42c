// The messages by their type numbers.
ghost use Rattle.std.specs.Prelude.{◌≡◌};
ghost use Rattle.payloads.specs.Types.{type_for};

use refusals::Refusal;

// In the order of the one list, specs/Payloads.antt, so that a type `as usize` is its place there.
#[derive(Clone, Copy, Debug, PartialEq, Eq)]
pub enum MessageType {
    Obs,
    GpsTime,
    Dops,
    PosEcef,
    PosLlh,
    BaselineEcef,
    VelEcef,
    BaselineNed,
    VelNed,
    BaselineHeading,
    BasePosLlh,
    BasePosEcef,
    EphemerisGps,
    EphemerisSbas,
    EphemerisGlo,
    Iono,
    SvConfigurationGps,
    GroupDelay,
    SettingsSave,
    ReadByIndexDone,
    ReadByIndexReq,
    Startup,
    Heartbeat,
    Log,
}

// The message of that number, if it has a reading.
pub fn message_type(kind: u16) -> Result<MessageType, Refusal>
    ensures { result ≡ type_for kind }
{
    match kind {
        0x0049 => Ok(MessageType::Obs),
        0x0100 => Ok(MessageType::GpsTime),
        0x0206 => Ok(MessageType::Dops),
        0x0200 => Ok(MessageType::PosEcef),
        0x0201 => Ok(MessageType::PosLlh),
        0x0202 => Ok(MessageType::BaselineEcef),
        0x0204 => Ok(MessageType::VelEcef),
        0x0203 => Ok(MessageType::BaselineNed),
        0x0205 => Ok(MessageType::VelNed),
        0x0207 => Ok(MessageType::BaselineHeading),
        0x0044 => Ok(MessageType::BasePosLlh),
        0x0048 => Ok(MessageType::BasePosEcef),
        0x0081 => Ok(MessageType::EphemerisGps),
        0x0082 => Ok(MessageType::EphemerisSbas),
        0x0083 => Ok(MessageType::EphemerisGlo),
        0x0090 => Ok(MessageType::Iono),
        0x0091 => Ok(MessageType::SvConfigurationGps),
        0x0092 => Ok(MessageType::GroupDelay),
        0x00a1 => Ok(MessageType::SettingsSave),
        0x00a6 => Ok(MessageType::ReadByIndexDone),
        0x00a2 => Ok(MessageType::ReadByIndexReq),
        0xff00 => Ok(MessageType::Startup),
        0xffff => Ok(MessageType::Heartbeat),
        0x0401 => Ok(MessageType::Log),
        _ => Err(Refusal::UnknownType),
    }
}
