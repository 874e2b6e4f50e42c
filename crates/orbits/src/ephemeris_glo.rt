// EPHEMERIS_GLO, 0x0083: the satellite's carrier and time, where it is and how it moves.
ghost use Rattle.orbits.specs.EphemerisGlo.{ephemeris_glo, fixed};

use crate::motion::Motion;
use frame_writer::FixedMessage;
use parts::EphemerisCommon;
use wire::{Double, InBytes};

#[derive(Clone, Copy)]
pub struct EphemerisGlo {
    pub common: EphemerisCommon,
    pub gamma: Double,
    pub tau: Double,
    pub motion: Motion,
}

impl FixedMessage for EphemerisGlo {
    type Record = EphemerisGlo;

    const KIND: u16 = 0x0083;

    const LENGTH: usize = 112;

    ghost KIND = { 0x0083 };

    ghost LENGTH = { 112 };

    ghost description = { ephemeris_glo };

    fn take(s: &[u8]) -> EphemerisGlo {
        EphemerisGlo {
            common: EphemerisCommon::take(s),
            gamma: Double::read(s, 24),
            tau: Double::read(s, 32),
            motion: Motion::take(s, 40),
        }
    }

    fn put(buf: &mut [u8], r: EphemerisGlo) {
        r.common.put(buf);
        r.gamma.store(buf, 30);
        r.tau.store(buf, 38);
        r.motion.put(buf, 46);
    }

    fn allowed(_r: EphemerisGlo) -> bool {
        true
    }

    ghost fixed = { fixed };
}
