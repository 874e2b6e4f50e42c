// BASELINE_ECEF, 0x0202, in mm, and VEL_ECEF, 0x0204, in mm/s: one layout, two meanings.
ghost use Rattle.std.specs.Prelude.{◌≡◌};
ghost use Rattle.layouts.specs.Inner.{body_stored};
ghost use Rattle.layouts.specs.Description.{inside};
ghost use Rattle.baselines.specs.Ecef.{baseline_ecef, vel_ecef, baseline_fixed, vel_fixed};

use flags::fix_allowed;
use frame_writer::FixedMessage;
use wire::InBytes;

#[derive(Clone, Copy)]
pub struct EcefVector {
    pub tow: u32,
    pub x: i32,
    pub y: i32,
    pub z: i32,
    pub accuracy: u16,
    pub n_sats: u8,
    pub flags: u8,
}

// The bytes that the two have in common.
impl EcefVector {
    fn inside(s: &[u8]) -> EcefVector
        ensures { result ≡ inside vel_ecef s.now }
    {
        EcefVector {
            tow: u32::read(s, 0),
            x: i32::read(s, 4),
            y: i32::read(s, 8),
            z: i32::read(s, 12),
            accuracy: u16::read(s, 16),
            n_sats: u8::read(s, 18),
            flags: u8::read(s, 19),
        }
    }

    fn store(self, buf: &mut [u8])
        ensures { buf.new ≡ body_stored vel_ecef.layout (vel_ecef.row self) buf.old 6 }
    {
        self.tow.store(buf, 6);
        self.x.store(buf, 10);
        self.y.store(buf, 14);
        self.z.store(buf, 18);
        self.accuracy.store(buf, 22);
        self.n_sats.store(buf, 24);
        self.flags.store(buf, 25);
    }
}

// BASELINE_ECEF: the flags have a fix mode.
pub struct BaselineEcef;

impl FixedMessage for BaselineEcef {
    type Record = EcefVector;

    const KIND: u16 = 0x0202;

    const LENGTH: usize = 20;

    ghost KIND = { 0x0202 };

    ghost LENGTH = { 20 };

    ghost description = { baseline_ecef };

    fn take(s: &[u8]) -> EcefVector {
        EcefVector::inside(s)
    }

    fn put(buf: &mut [u8], r: EcefVector) {
        r.store(buf);
    }

    fn allowed(r: EcefVector) -> bool {
        fix_allowed(r.flags, 1)
    }

    ghost fixed = { baseline_fixed };
}

// VEL_ECEF: any flags.
pub struct VelEcef;

impl FixedMessage for VelEcef {
    type Record = EcefVector;

    const KIND: u16 = 0x0204;

    const LENGTH: usize = 20;

    ghost KIND = { 0x0204 };

    ghost LENGTH = { 20 };

    ghost description = { vel_ecef };

    fn take(s: &[u8]) -> EcefVector {
        EcefVector::inside(s)
    }

    fn put(buf: &mut [u8], r: EcefVector) {
        r.store(buf);
    }

    fn allowed(_r: EcefVector) -> bool {
        true
    }

    ghost fixed = { vel_fixed };
}
