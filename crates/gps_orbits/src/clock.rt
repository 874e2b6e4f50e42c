// A GPS satellite's clock: a polynomial from its time on, where it stands in EPHEMERIS_GPS.
ghost use Rattle.std.specs.Prelude.{◌≡◌};
ghost use Rattle.layouts.specs.Together.{taken_at, put_at};
ghost use Rattle.gps_orbits.specs.EphemerisGps.{clock};

use parts::TimeOfWeek;
use wire::{Double, InBytes};

#[derive(Clone, Copy)]
pub struct Clock {
    pub af0: Double,
    pub af1: Double,
    pub af2: Double,
    pub toc: TimeOfWeek,
}

impl Clock {
    pub(crate) fn take(s: &[u8]) -> Clock
        ensures { result ≡ taken_at clock s.now 152 }
    {
        Clock {
            af0: Double::read(s, 152),
            af1: Double::read(s, 160),
            af2: Double::read(s, 168),
            toc: TimeOfWeek::take(s, 176),
        }
    }

    pub(crate) fn put(self, buf: &mut [u8])
        ensures { buf.new ≡ put_at clock self buf.old 158 }
    {
        self.af0.store(buf, 158);
        self.af1.store(buf, 166);
        self.af2.store(buf, 174);
        self.toc.put(buf, 182);
    }
}
