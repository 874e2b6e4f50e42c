// Position, velocity and acceleration of a satellite.
ghost use Rattle.std.specs.Prelude.{◌≡◌};
ghost use Rattle.layouts.specs.Together.{taken_at, put_at};
ghost use Rattle.orbits.specs.Motion.{motion, vector};

use wire::{Double, InBytes};

#[derive(Clone, Copy)]
pub struct Vector {
    pub x: Double,
    pub y: Double,
    pub z: Double,
}

#[derive(Clone, Copy)]
pub struct Motion {
    pub pos: Vector,
    pub vel: Vector,
    pub acc: Vector,
}

// A motion begins where a byte can say; its vectors go on beyond that.
impl Vector {
    fn take(s: &[u8], at: u16) -> Vector
        ensures { result ≡ taken_at vector s.now at }
    {
        let start = at as usize;
        Vector {
            x: Double::read(s, start),
            y: Double::read(s, start + 8),
            z: Double::read(s, start + 16),
        }
    }

    fn put(self, buf: &mut [u8], at: u16)
        ensures { buf.new ≡ put_at vector self buf.old at }
    {
        let start = at as usize;
        self.x.store(buf, start);
        self.y.store(buf, start + 8);
        self.z.store(buf, start + 16);
    }
}

impl Motion {
    pub(crate) fn take(s: &[u8], at: u8) -> Motion
        ensures { result ≡ taken_at motion s.now at }
    {
        let start = at as u16;
        Motion {
            pos: Vector::take(s, start),
            vel: Vector::take(s, start + 24),
            acc: Vector::take(s, start + 48),
        }
    }

    pub(crate) fn put(self, buf: &mut [u8], at: u8)
        ensures { buf.new ≡ put_at motion self buf.old at }
    {
        let start = at as u16;
        self.pos.put(buf, start);
        self.vel.put(buf, start + 24);
        self.acc.put(buf, start + 48);
    }
}
