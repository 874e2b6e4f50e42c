// EPHEMERIS_SBAS, 0x0082: where the satellite is and how it moves, and its clock.
ghost use Rattle.orbits.specs.EphemerisSbas.{ephemeris_sbas, fixed};

use crate::motion::Motion;
use frame_writer::FixedMessage;
use parts::EphemerisCommon;
use wire::{Double, InBytes};

#[derive(Clone, Copy)]
pub struct EphemerisSbas {
    pub common: EphemerisCommon,
    pub motion: Motion,
    pub a_gf0: Double,
    pub a_gf1: Double,
}

impl FixedMessage for EphemerisSbas {
    type Record = EphemerisSbas;

    const KIND: u16 = 0x0082;

    const LENGTH: usize = 112;

    ghost KIND = { 0x0082 };

    ghost LENGTH = { 112 };

    ghost description = { ephemeris_sbas };

    fn take(s: &[u8]) -> EphemerisSbas {
        EphemerisSbas {
            common: EphemerisCommon::take(s),
            motion: Motion::take(s, 24),
            a_gf0: Double::read(s, 96),
            a_gf1: Double::read(s, 104),
        }
    }

    fn put(buf: &mut [u8], r: EphemerisSbas) {
        r.common.put(buf);
        r.motion.put(buf, 30);
        r.a_gf0.store(buf, 102);
        r.a_gf1.store(buf, 110);
    }

    fn allowed(_r: EphemerisSbas) -> bool {
        true
    }

    ghost fixed = { fixed };
}
