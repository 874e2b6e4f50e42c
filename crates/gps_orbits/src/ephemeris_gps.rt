// EPHEMERIS_GPS, 0x0081: the orbit by its elements, and the clock.
ghost use Rattle.gps_orbits.specs.EphemerisGps.{ephemeris_gps, fixed};

use crate::clock::Clock;
use crate::elements::{Ellipse, Harmonics, Plane};
use frame_writer::FixedMessage;
use parts::EphemerisCommon;
use wire::{Double, InBytes};

#[derive(Clone, Copy)]
pub struct EphemerisGps {
    pub common: EphemerisCommon,
    pub tgd: Double,
    pub harmonics: Harmonics,
    pub ellipse: Ellipse,
    pub plane: Plane,
    pub clock: Clock,
    pub iode: u8,
    pub iodc: u16,
}

impl FixedMessage for EphemerisGps {
    type Record = EphemerisGps;

    const KIND: u16 = 0x0081;

    const LENGTH: usize = 185;

    ghost KIND = { 0x0081 };

    ghost LENGTH = { 185 };

    ghost description = { ephemeris_gps };

    fn take(s: &[u8]) -> EphemerisGps {
        EphemerisGps {
            common: EphemerisCommon::take(s),
            tgd: Double::read(s, 24),
            harmonics: Harmonics::take(s),
            ellipse: Ellipse::take(s),
            plane: Plane::take(s),
            clock: Clock::take(s),
            iode: u8::read(s, 182),
            iodc: u16::read(s, 183),
        }
    }

    fn put(buf: &mut [u8], r: EphemerisGps) {
        r.common.put(buf);
        r.tgd.store(buf, 30);
        r.harmonics.put(buf);
        r.ellipse.put(buf);
        r.plane.put(buf);
        r.clock.put(buf);
        r.iode.store(buf, 188);
        r.iodc.store(buf, 189);
    }

    fn allowed(_r: EphemerisGps) -> bool {
        true
    }

    ghost fixed = { fixed };
}
