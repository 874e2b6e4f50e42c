// The record of a payload, by its message's own reader.
ghost use Rattle.std.specs.Prelude.{◌≡◌};
ghost use Rattle.refusals.specs.Numbers.{answer_of};
ghost use Rattle.readings.specs.Inner.{read_by};

use atmosphere::{GroupDelay, Iono, SvConfigurationGps};
use base_positions::{BasePosEcef, BasePosLlh};
use baselines::{BaselineEcef, BaselineHeading, BaselineNed, VelEcef, VelNed};
use frame_writer::read_message;
use gps_orbits::EphemerisGps;
use orbits::{EphemerisGlo, EphemerisSbas};
use payloads::{Message, MessageType};
use positions::{PosEcef, PosLlh};
use refusals::Refusal;
use system::{Heartbeat, ReadByIndexDone, ReadByIndexReq, SettingsSave, Startup};
use time_and_dops::{Dops, GpsTime};

pub(crate) fn record_of(message: MessageType, s: &[u8]) -> Result<Message, Refusal>
    ensures { answer_of result ≡ read_by message s.now }
{
    match message {
        MessageType::Obs => observation::read_obs(s).map(Message::Obs),
        MessageType::GpsTime => read_message::<GpsTime>(s).map(Message::GpsTime),
        MessageType::Dops => read_message::<Dops>(s).map(Message::Dops),
        MessageType::PosEcef => read_message::<PosEcef>(s).map(Message::PosEcef),
        MessageType::PosLlh => read_message::<PosLlh>(s).map(Message::PosLlh),
        MessageType::BaselineEcef => read_message::<BaselineEcef>(s).map(Message::BaselineEcef),
        MessageType::VelEcef => read_message::<VelEcef>(s).map(Message::VelEcef),
        MessageType::BaselineNed => read_message::<BaselineNed>(s).map(Message::BaselineNed),
        MessageType::VelNed => read_message::<VelNed>(s).map(Message::VelNed),
        MessageType::BaselineHeading => {
            read_message::<BaselineHeading>(s).map(Message::BaselineHeading)
        }
        MessageType::BasePosLlh => read_message::<BasePosLlh>(s).map(Message::BasePosLlh),
        MessageType::BasePosEcef => read_message::<BasePosEcef>(s).map(Message::BasePosEcef),
        MessageType::EphemerisGps => read_message::<EphemerisGps>(s).map(Message::EphemerisGps),
        MessageType::EphemerisSbas => read_message::<EphemerisSbas>(s).map(Message::EphemerisSbas),
        MessageType::EphemerisGlo => read_message::<EphemerisGlo>(s).map(Message::EphemerisGlo),
        MessageType::Iono => read_message::<Iono>(s).map(Message::Iono),
        MessageType::SvConfigurationGps => {
            read_message::<SvConfigurationGps>(s).map(Message::SvConfigurationGps)
        }
        MessageType::GroupDelay => read_message::<GroupDelay>(s).map(Message::GroupDelay),
        MessageType::SettingsSave => read_message::<SettingsSave>(s).map(|_| Message::SettingsSave),
        MessageType::ReadByIndexDone => {
            read_message::<ReadByIndexDone>(s).map(|_| Message::ReadByIndexDone)
        }
        MessageType::ReadByIndexReq => {
            read_message::<ReadByIndexReq>(s).map(Message::ReadByIndexReq)
        }
        MessageType::Startup => read_message::<Startup>(s).map(Message::Startup),
        MessageType::Heartbeat => read_message::<Heartbeat>(s).map(Message::Heartbeat),
        MessageType::Log => logs::read_log(s).map(Message::Log),
    }
}
