// What a payload's fields are, by its type: its layout as digits, the first field's lowest (formats/specs/Digits.antt).
ghost use Rattle.std.specs.Prelude.{◌≡◌};
ghost use Rattle.payloads.specs.Payloads.{shape_for};
ghost use Rattle.payloads.specs.Types.{type_number};

use crate::kind::{MessageType, message_type};
use formats::Shape;

// Digits of the first sixteen fields, of those after, and of what is repeated.
fn digits(head: u64, more: u64, each: u64) -> Shape
    ensures { result ≡ record { head = head; more = more; each = each } }
{
    Shape { head, more, each }
}

pub fn shape_of_type(message: MessageType) -> Shape
    ensures { result ≡ shape_for (type_number message) }
{
    match message {
        MessageType::Obs => digits(0x124, 0, 0x112211c4),
        MessageType::GpsTime => digits(0x1c42, 0, 0),
        MessageType::Dops => digits(0x222224, 0, 0),
        MessageType::PosEcef => digits(0x1128884, 0, 0),
        MessageType::PosLlh => digits(0x11228884, 0, 0),
        MessageType::BaselineEcef => digits(0x112ccc4, 0, 0),
        MessageType::VelEcef => digits(0x112ccc4, 0, 0),
        MessageType::BaselineNed => digits(0x1122ccc4, 0, 0),
        MessageType::VelNed => digits(0x1122ccc4, 0, 0),
        MessageType::BaselineHeading => digits(0x1144, 0, 0),
        MessageType::BasePosLlh => digits(0x888, 0, 0),
        MessageType::BasePosEcef => digits(0x888, 0, 0),
        MessageType::EphemerisGps => digits(0x8888888114824112, 0x2124888888888888, 0),
        MessageType::EphemerisSbas => digits(0x8888888114824112, 0x8888, 0),
        MessageType::EphemerisGlo => digits(0x8888888114824112, 0x8888, 0),
        MessageType::Iono => digits(0x8888888824, 0, 0),
        MessageType::SvConfigurationGps => digits(0x424, 0, 0),
        MessageType::GroupDelay => digits(0xaaa1124, 0, 0),
        MessageType::SettingsSave => digits(0, 0, 0),
        MessageType::ReadByIndexDone => digits(0, 0, 0),
        MessageType::ReadByIndexReq => digits(0x2, 0, 0),
        MessageType::Startup => digits(0x4, 0, 0),
        MessageType::Heartbeat => digits(0x4, 0, 0),
        MessageType::Log => digits(0x1, 0, 0xf),
    }
}

// The same of any number; of a type without a reading nothing.
pub fn shape_of(kind: u16) -> Shape
    ensures { result ≡ shape_for kind }
{
    match message_type(kind) {
        Ok(message) => shape_of_type(message),
        Err(_) => digits(0, 0, 0),
    }
}
