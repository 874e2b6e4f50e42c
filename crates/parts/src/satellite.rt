// A satellite's signal: 003's sid.
ghost use Rattle.std.specs.Prelude.{◌≡◌};
ghost use Rattle.layouts.specs.Together.{taken_at, put_at};
ghost use Rattle.parts.specs.Common.{satellite};

use wire::InBytes;

#[derive(Clone, Copy)]
pub struct Satellite {
    pub sat: u16,
    pub code: u8,
    pub reserved: u8,
}

impl Satellite {
    pub(crate) fn take(s: &[u8]) -> Satellite
        ensures { result ≡ taken_at satellite s.now 0 }
    {
        Satellite {
            sat: u16::read(s, 0),
            code: u8::read(s, 2),
            reserved: u8::read(s, 3),
        }
    }

    pub(crate) fn put(self, buf: &mut [u8])
        ensures { buf.new ≡ put_at satellite self buf.old 6 }
    {
        self.sat.store(buf, 6);
        self.code.store(buf, 8);
        self.reserved.store(buf, 9);
    }
}
