// IONO, 0x0090: the ionospheric model's two polynomials.
ghost use Rattle.std.specs.Prelude.{◌≡◌};
ghost use Rattle.layouts.specs.Together.{taken_at, put_at};
ghost use Rattle.atmosphere.specs.Iono.{iono, cubic, fixed};

use frame_writer::FixedMessage;
use parts::TimeOfWeek;
use wire::{Double, InBytes};

// 003's a0 to a3, or b0 to b3.
#[derive(Clone, Copy)]
pub struct Cubic {
    pub c0: Double,
    pub c1: Double,
    pub c2: Double,
    pub c3: Double,
}

impl Cubic {
    fn take(s: &[u8], at: u8) -> Cubic
        ensures { result ≡ taken_at cubic s.now at }
    {
        let start = at as usize;
        Cubic {
            c0: Double::read(s, start),
            c1: Double::read(s, start + 8),
            c2: Double::read(s, start + 16),
            c3: Double::read(s, start + 24),
        }
    }

    fn put(self, buf: &mut [u8], at: u8)
        ensures { buf.new ≡ put_at cubic self buf.old at }
    {
        let start = at as usize;
        self.c0.store(buf, start);
        self.c1.store(buf, start + 8);
        self.c2.store(buf, start + 16);
        self.c3.store(buf, start + 24);
    }
}

#[derive(Clone, Copy)]
pub struct Iono {
    pub t_nmct: TimeOfWeek,
    pub a: Cubic,
    pub b: Cubic,
}

impl FixedMessage for Iono {
    type Record = Iono;

    const KIND: u16 = 0x0090;

    const LENGTH: usize = 70;

    ghost KIND = { 0x0090 };

    ghost LENGTH = { 70 };

    ghost description = { iono };

    fn take(s: &[u8]) -> Iono {
        Iono {
            t_nmct: TimeOfWeek::take(s, 0),
            a: Cubic::take(s, 6),
            b: Cubic::take(s, 38),
        }
    }

    fn put(buf: &mut [u8], r: Iono) {
        r.t_nmct.put(buf, 6);
        r.a.put(buf, 12);
        r.b.put(buf, 44);
    }

    fn allowed(_r: Iono) -> bool {
        true
    }

    ghost fixed = { fixed };
}
