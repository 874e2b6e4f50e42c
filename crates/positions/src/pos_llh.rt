// POS_LLH, 0x0201: the geodetic position, in degrees and m.
ghost use Rattle.std.specs.Prelude.{◌≡◌};
ghost use Rattle.positions.specs.PosLlh.{pos_llh, fixed};

use flags::fix_allowed;
use frame_writer::FixedMessage;
use wire::{Double, InBytes};

#[derive(Clone, Copy)]
pub struct PosLlh {
    pub tow: u32,
    pub lat: Double,
    pub lon: Double,
    pub height: Double,
    pub h_accuracy: u16,
    pub v_accuracy: u16,
    pub n_sats: u8,
    pub flags: u8,
}

impl FixedMessage for PosLlh {
    type Record = PosLlh;

    const KIND: u16 = 0x0201;

    const LENGTH: usize = 34;

    ghost KIND = { 0x0201 };

    ghost LENGTH = { 34 };

    ghost description = { pos_llh };

    fn take(s: &[u8]) -> PosLlh {
        PosLlh {
            tow: u32::read(s, 0),
            lat: Double::read(s, 4),
            lon: Double::read(s, 12),
            height: Double::read(s, 20),
            h_accuracy: u16::read(s, 28),
            v_accuracy: u16::read(s, 30),
            n_sats: u8::read(s, 32),
            flags: u8::read(s, 33),
        }
    }

    fn put(buf: &mut [u8], r: PosLlh) {
        r.tow.store(buf, 6);
        r.lat.store(buf, 10);
        r.lon.store(buf, 18);
        r.height.store(buf, 26);
        r.h_accuracy.store(buf, 34);
        r.v_accuracy.store(buf, 36);
        r.n_sats.store(buf, 38);
        r.flags.store(buf, 39);
    }

    fn allowed(r: PosLlh) -> bool {
        fix_allowed(r.flags, 2)
    }

    ghost fixed = { fixed };
}
