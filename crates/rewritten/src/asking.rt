// What a message's own reader answers.
use atmosphere::{GroupDelay, Iono, SvConfigurationGps};
use base_positions::{BasePosEcef, BasePosLlh};
use baselines::{BaselineEcef, BaselineHeading, BaselineNed, VelEcef, VelNed};
use frame_writer::{FixedMessage, read_message};
use gps_orbits::EphemerisGps;
use orbits::{EphemerisGlo, EphemerisSbas};
use payloads::MessageType;
use positions::{PosEcef, PosLlh};
use refusals::Refusal;
use system::{Heartbeat, ReadByIndexDone, ReadByIndexReq, SettingsSave, Startup};
use time_and_dops::{Dops, GpsTime};

pub fn answer(kind: u16, s: &[u8]) -> Result<(), Refusal> {
    match payloads::message_type(kind)? {
        MessageType::Obs => observation::read_obs(s).map(|_| ()),
        MessageType::GpsTime => asked::<GpsTime>(s),
        MessageType::Dops => asked::<Dops>(s),
        MessageType::PosEcef => asked::<PosEcef>(s),
        MessageType::PosLlh => asked::<PosLlh>(s),
        MessageType::BaselineEcef => asked::<BaselineEcef>(s),
        MessageType::VelEcef => asked::<VelEcef>(s),
        MessageType::BaselineNed => asked::<BaselineNed>(s),
        MessageType::VelNed => asked::<VelNed>(s),
        MessageType::BaselineHeading => asked::<BaselineHeading>(s),
        MessageType::BasePosLlh => asked::<BasePosLlh>(s),
        MessageType::BasePosEcef => asked::<BasePosEcef>(s),
        MessageType::EphemerisGps => asked::<EphemerisGps>(s),
        MessageType::EphemerisSbas => asked::<EphemerisSbas>(s),
        MessageType::EphemerisGlo => asked::<EphemerisGlo>(s),
        MessageType::Iono => asked::<Iono>(s),
        MessageType::SvConfigurationGps => asked::<SvConfigurationGps>(s),
        MessageType::GroupDelay => asked::<GroupDelay>(s),
        MessageType::SettingsSave => asked::<SettingsSave>(s),
        MessageType::ReadByIndexDone => asked::<ReadByIndexDone>(s),
        MessageType::ReadByIndexReq => asked::<ReadByIndexReq>(s),
        MessageType::Startup => asked::<Startup>(s),
        MessageType::Heartbeat => asked::<Heartbeat>(s),
        MessageType::Log => logs::read_log(s).map(|_| ()),
    }
}

fn asked<M: FixedMessage>(s: &[u8]) -> Result<(), Refusal> {
    read_message::<M>(s).map(|_| ())
}
