// What every ephemeris begins with.
ghost use Rattle.std.specs.Prelude.{◌≡◌};
ghost use Rattle.layouts.specs.Together.{taken_at, put_at};
ghost use Rattle.parts.specs.Common.{common};

use crate::satellite::Satellite;
use crate::time_of_week::TimeOfWeek;
use wire::{Double, InBytes};

#[derive(Clone, Copy)]
pub struct EphemerisCommon {
    pub sid: Satellite,
    pub toe: TimeOfWeek,
    pub ura: Double,
    pub fit_interval: u32,
    pub valid: u8,
    pub health: u8,
}

impl EphemerisCommon {
    pub fn take(s: &[u8]) -> EphemerisCommon
        ensures { result ≡ taken_at common s.now 0 }
    {
        EphemerisCommon {
            sid: Satellite::take(s),
            toe: TimeOfWeek::take(s, 4),
            ura: Double::read(s, 10),
            fit_interval: u32::read(s, 18),
            valid: u8::read(s, 22),
            health: u8::read(s, 23),
        }
    }

    pub fn put(self, buf: &mut [u8])
        ensures { buf.new ≡ put_at common self buf.old 6 }
    {
        self.sid.put(buf);
        self.toe.put(buf, 10);
        self.ura.store(buf, 16);
        self.fit_interval.store(buf, 24);
        self.valid.store(buf, 28);
        self.health.store(buf, 29);
    }
}
