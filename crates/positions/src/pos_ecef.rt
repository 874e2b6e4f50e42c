// POS_ECEF, 0x0200: the position, Earth centred, in m.
ghost use Rattle.std.specs.Prelude.{◌≡◌};
ghost use Rattle.positions.specs.PosEcef.{pos_ecef, fixed};

use flags::fix_allowed;
use frame_writer::FixedMessage;
use wire::{Double, InBytes};

#[derive(Clone, Copy)]
pub struct PosEcef {
    pub tow: u32,
    pub x: Double,
    pub y: Double,
    pub z: Double,
    pub accuracy: u16,
    pub n_sats: u8,
    pub flags: u8,
}

impl FixedMessage for PosEcef {
    type Record = PosEcef;

    const KIND: u16 = 0x0200;

    const LENGTH: usize = 32;

    ghost KIND = { 0x0200 };

    ghost LENGTH = { 32 };

    ghost description = { pos_ecef };

    fn take(s: &[u8]) -> PosEcef {
        PosEcef {
            tow: u32::read(s, 0),
            x: Double::read(s, 4),
            y: Double::read(s, 12),
            z: Double::read(s, 20),
            accuracy: u16::read(s, 28),
            n_sats: u8::read(s, 30),
            flags: u8::read(s, 31),
        }
    }

    fn put(buf: &mut [u8], r: PosEcef) {
        r.tow.store(buf, 6);
        r.x.store(buf, 10);
        r.y.store(buf, 18);
        r.z.store(buf, 26);
        r.accuracy.store(buf, 34);
        r.n_sats.store(buf, 36);
        r.flags.store(buf, 37);
    }

    fn allowed(r: PosEcef) -> bool {
        fix_allowed(r.flags, 2)
    }

    ghost fixed = { fixed };
}
