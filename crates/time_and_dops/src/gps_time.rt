// GPS_TIME, 0x0100: the GPS time.
ghost use Rattle.std.specs.Prelude.{◌≡◌};
ghost use Rattle.time_and_dops.specs.GpsTime.{gps_time, fixed};

use flags::ns_allowed;
use frame_writer::FixedMessage;
use wire::InBytes;

#[derive(Clone, Copy)]
pub struct GpsTime {
    pub wn: u16,
    pub tow: u32,
    pub ns: i32,
    pub flags: u8,
}

impl FixedMessage for GpsTime {
    type Record = GpsTime;

    const KIND: u16 = 0x0100;

    const LENGTH: usize = 11;

    ghost KIND = { 0x0100 };

    ghost LENGTH = { 11 };

    ghost description = { gps_time };

    fn take(s: &[u8]) -> GpsTime {
        GpsTime {
            wn: u16::read(s, 0),
            tow: u32::read(s, 2),
            ns: i32::read(s, 6),
            flags: u8::read(s, 10),
        }
    }

    fn put(buf: &mut [u8], r: GpsTime) {
        r.wn.store(buf, 6);
        r.tow.store(buf, 8);
        r.ns.store(buf, 12);
        r.flags.store(buf, 16);
    }

    fn allowed(r: GpsTime) -> bool {
        ns_allowed(r.ns)
    }

    ghost fixed = { fixed };
}
