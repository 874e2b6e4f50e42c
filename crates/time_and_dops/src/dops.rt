// DOPS, 0x0206: dilutions of precision, in 1/100.
ghost use Rattle.std.specs.Prelude.{◌≡◌};
ghost use Rattle.time_and_dops.specs.Dops.{dops, fixed};

use frame_writer::FixedMessage;
use wire::InBytes;

#[derive(Clone, Copy)]
pub struct Dops {
    pub tow: u32,
    pub gdop: u16,
    pub pdop: u16,
    pub tdop: u16,
    pub hdop: u16,
    pub vdop: u16,
}

impl FixedMessage for Dops {
    type Record = Dops;

    const KIND: u16 = 0x0206;

    const LENGTH: usize = 14;

    ghost KIND = { 0x0206 };

    ghost LENGTH = { 14 };

    ghost description = { dops };

    fn take(s: &[u8]) -> Dops {
        Dops {
            tow: u32::read(s, 0),
            gdop: u16::read(s, 4),
            pdop: u16::read(s, 6),
            tdop: u16::read(s, 8),
            hdop: u16::read(s, 10),
            vdop: u16::read(s, 12),
        }
    }

    fn put(buf: &mut [u8], r: Dops) {
        r.tow.store(buf, 6);
        r.gdop.store(buf, 10);
        r.pdop.store(buf, 12);
        r.tdop.store(buf, 14);
        r.hdop.store(buf, 16);
        r.vdop.store(buf, 18);
    }

    fn allowed(_r: Dops) -> bool {
        true
    }

    ghost fixed = { fixed };
}
