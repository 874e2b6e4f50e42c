// A payload read as its record, which is written by its message's own writer.
use crate::walking;
use atmosphere::{GroupDelay, Iono, SvConfigurationGps};
use base_positions::{BasePosEcef, BasePosLlh};
use baselines::{BaselineEcef, BaselineHeading, BaselineNed, VelEcef, VelNed};
use frame_writer::{FixedMessage, write_message};
use gps_orbits::EphemerisGps;
use orbits::{EphemerisGlo, EphemerisSbas};
use payloads::Message;
use positions::{PosEcef, PosLlh};
use refusals::Refusal;
use senders::Writer;
use system::{Heartbeat, ReadByIndexDone, ReadByIndexReq, SettingsSave, Startup};
use time_and_dops::{Dops, GpsTime};

// Given no sender: the raw frame beside it goes out under the same number, SETTINGS_SAVE and READ_BY_INDEX_REQ as 0x42.
pub fn recorder() -> Writer {
    Writer::made(0x0201)
}

// The observations of an OBS and the text of a LOG stay in the payload.
pub fn write(buf: &mut [u8], kind: u16, payload: &[u8]) -> Result<usize, Refusal> {
    match readings::read(kind, payload)? {
        Message::GpsTime(r) => by_own::<GpsTime>(buf, r),
        Message::Dops(r) => by_own::<Dops>(buf, r),
        Message::PosEcef(r) => by_own::<PosEcef>(buf, r),
        Message::PosLlh(r) => by_own::<PosLlh>(buf, r),
        Message::BaselineEcef(r) => by_own::<BaselineEcef>(buf, r),
        Message::VelEcef(r) => by_own::<VelEcef>(buf, r),
        Message::BaselineNed(r) => by_own::<BaselineNed>(buf, r),
        Message::VelNed(r) => by_own::<VelNed>(buf, r),
        Message::BaselineHeading(r) => by_own::<BaselineHeading>(buf, r),
        Message::BasePosLlh(r) => by_own::<BasePosLlh>(buf, r),
        Message::BasePosEcef(r) => by_own::<BasePosEcef>(buf, r),
        Message::EphemerisGps(r) => by_own::<EphemerisGps>(buf, r),
        Message::EphemerisSbas(r) => by_own::<EphemerisSbas>(buf, r),
        Message::EphemerisGlo(r) => by_own::<EphemerisGlo>(buf, r),
        Message::Iono(r) => by_own::<Iono>(buf, r),
        Message::SvConfigurationGps(r) => by_own::<SvConfigurationGps>(buf, r),
        Message::GroupDelay(r) => by_own::<GroupDelay>(buf, r),
        Message::Obs(r) => obs_writer::write_obs(buf, recorder(), r, walking::entries(payload)),
        Message::Log(r) => logs::write_log(
            buf,
            recorder(),
            r.level,
            logs::log_text(payload),
            r.padding,
        ),
        Message::SettingsSave => by_own::<SettingsSave>(buf, ()),
        Message::ReadByIndexDone => by_own::<ReadByIndexDone>(buf, ()),
        Message::ReadByIndexReq(r) => by_own::<ReadByIndexReq>(buf, r),
        Message::Startup(r) => by_own::<Startup>(buf, r),
        Message::Heartbeat(r) => by_own::<Heartbeat>(buf, r),
    }
}

fn by_own<M: FixedMessage>(buf: &mut [u8], r: M::Record) -> Result<usize, Refusal> {
    write_message::<M>(buf, recorder(), r)
}
