// What a payload is tested for before it is read, by its type: document 01's lengths and ranges.
ghost use Rattle.std.specs.Prelude.{◌≡◌, Some};
ghost use Rattle.refusals.specs.Refusals.{ordered};
ghost use Rattle.refusals.specs.Numbers.{answer_of};
ghost use Rattle.payloads.specs.Checks.{tests, tests_by};
ghost use Rattle.payloads.specs.Inner.{check_for};
ghost use Rattle.payloads.specs.Types.{type_number};

use crate::kind::MessageType;
use refusals::Refusal;
use wire::InBytes;

#[derive(Clone, Copy)]
pub enum Check {
    Length(usize),
    // GPS_TIME: its length, and where ns stands
    Ns(usize, usize),
    // its length, where flags stand, and the last fix mode
    Fix(usize, usize, u8),
    Obs,
    Log,
}

pub fn check_of(message: MessageType) -> Check
    ensures { Some result ≡ check_for (type_number message) }
{
    match message {
        MessageType::Obs => Check::Obs,
        MessageType::GpsTime => Check::Ns(11, 6),
        MessageType::Dops => Check::Length(14),
        MessageType::PosEcef => Check::Fix(32, 31, 2),
        MessageType::PosLlh => Check::Fix(34, 33, 2),
        MessageType::BaselineEcef => Check::Fix(20, 19, 1),
        MessageType::VelEcef => Check::Length(20),
        MessageType::BaselineNed => Check::Fix(22, 21, 1),
        MessageType::VelNed => Check::Length(22),
        MessageType::BaselineHeading => Check::Fix(10, 9, 1),
        MessageType::BasePosLlh => Check::Length(24),
        MessageType::BasePosEcef => Check::Length(24),
        MessageType::EphemerisGps => Check::Length(185),
        MessageType::EphemerisSbas => Check::Length(112),
        MessageType::EphemerisGlo => Check::Length(112),
        MessageType::Iono => Check::Length(70),
        MessageType::SvConfigurationGps => Check::Length(10),
        MessageType::GroupDelay => Check::Length(14),
        MessageType::SettingsSave => Check::Length(0),
        MessageType::ReadByIndexDone => Check::Length(0),
        MessageType::ReadByIndexReq => Check::Length(2),
        MessageType::Startup => Check::Length(4),
        MessageType::Heartbeat => Check::Length(4),
        MessageType::Log => Check::Log,
    }
}

// 22, then 23.
fn tested_for(fits: bool, inside: bool) -> Result<(), Refusal>
    ensures { answer_of result ≡ ordered (tests fits inside) tt }
{
    if !fits {
        return Err(Refusal::WrongLength);
    }
    if !inside {
        return Err(Refusal::OutOfRange);
    }
    Ok(())
}

// No record is built: a range is tested on the bytes of its field, LOG's padding on the payload.
pub fn tested(check: Check, s: &[u8]) -> Result<(), Refusal>
    ensures { answer_of result ≡ ordered (tests_by check s.now) tt }
{
    match check {
        Check::Length(n) => tested_for(s.len() == n, true),
        Check::Ns(n, at) => tested_for(s.len() == n, flags::ns_allowed(i32::read(s, at))),
        Check::Fix(n, at, last) => {
            tested_for(s.len() == n, flags::fix_allowed(u8::read(s, at), last))
        }
        Check::Obs => tested_for(observation::is_obs_length(s.len()), true),
        Check::Log => tested_for(logs::is_log_length(s.len()), logs::log_padded(s)),
    }
}
