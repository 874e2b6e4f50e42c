// The elements of a GPS satellite's orbit, where they stand in EPHEMERIS_GPS.
ghost use Rattle.std.specs.Prelude.{◌≡◌};
ghost use Rattle.layouts.specs.Together.{taken_at, put_at};
ghost use Rattle.gps_orbits.specs.EphemerisGps.{harmonics, ellipse, plane};

use wire::{Double, InBytes};

// Sine and cosine corrections to the radius, the argument of latitude and the inclination.
#[derive(Clone, Copy)]
pub struct Harmonics {
    pub c_rs: Double,
    pub c_rc: Double,
    pub c_uc: Double,
    pub c_us: Double,
    pub c_ic: Double,
    pub c_is: Double,
}

impl Harmonics {
    pub(crate) fn take(s: &[u8]) -> Harmonics
        ensures { result ≡ taken_at harmonics s.now 32 }
    {
        Harmonics {
            c_rs: Double::read(s, 32),
            c_rc: Double::read(s, 40),
            c_uc: Double::read(s, 48),
            c_us: Double::read(s, 56),
            c_ic: Double::read(s, 64),
            c_is: Double::read(s, 72),
        }
    }

    pub(crate) fn put(self, buf: &mut [u8])
        ensures { buf.new ≡ put_at harmonics self buf.old 38 }
    {
        self.c_rs.store(buf, 38);
        self.c_rc.store(buf, 46);
        self.c_uc.store(buf, 54);
        self.c_us.store(buf, 62);
        self.c_ic.store(buf, 70);
        self.c_is.store(buf, 78);
    }
}

// How the satellite goes along its orbit.
#[derive(Clone, Copy)]
pub struct Ellipse {
    pub dn: Double,
    pub m0: Double,
    pub ecc: Double,
    pub sqrta: Double,
}

impl Ellipse {
    pub(crate) fn take(s: &[u8]) -> Ellipse
        ensures { result ≡ taken_at ellipse s.now 80 }
    {
        Ellipse {
            dn: Double::read(s, 80),
            m0: Double::read(s, 88),
            ecc: Double::read(s, 96),
            sqrta: Double::read(s, 104),
        }
    }

    pub(crate) fn put(self, buf: &mut [u8])
        ensures { buf.new ≡ put_at ellipse self buf.old 86 }
    {
        self.dn.store(buf, 86);
        self.m0.store(buf, 94);
        self.ecc.store(buf, 102);
        self.sqrta.store(buf, 110);
    }
}

// How its orbit lies in space.
#[derive(Clone, Copy)]
pub struct Plane {
    pub omega0: Double,
    pub omegadot: Double,
    pub w: Double,
    pub inc: Double,
    pub inc_dot: Double,
}

impl Plane {
    pub(crate) fn take(s: &[u8]) -> Plane
        ensures { result ≡ taken_at plane s.now 112 }
    {
        Plane {
            omega0: Double::read(s, 112),
            omegadot: Double::read(s, 120),
            w: Double::read(s, 128),
            inc: Double::read(s, 136),
            inc_dot: Double::read(s, 144),
        }
    }

    pub(crate) fn put(self, buf: &mut [u8])
        ensures { buf.new ≡ put_at plane self buf.old 118 }
    {
        self.omega0.store(buf, 118);
        self.omegadot.store(buf, 126);
        self.w.store(buf, 134);
        self.inc.store(buf, 142);
        self.inc_dot.store(buf, 150);
    }
}
