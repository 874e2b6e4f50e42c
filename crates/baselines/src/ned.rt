// BASELINE_NED, 0x0203, in mm, and VEL_NED, 0x0205, in mm/s: one layout, two meanings.
ghost use Rattle.std.specs.Prelude.{◌≡◌};
ghost use Rattle.layouts.specs.Inner.{body_stored};
ghost use Rattle.layouts.specs.Description.{inside};
ghost use Rattle.baselines.specs.Ned.{baseline_ned, vel_ned, baseline_fixed, vel_fixed};

use flags::fix_allowed;
use frame_writer::FixedMessage;
use wire::InBytes;

#[derive(Clone, Copy)]
pub struct NedVector {
    pub tow: u32,
    pub n: i32,
    pub e: i32,
    pub d: i32,
    pub h_accuracy: u16,
    pub v_accuracy: u16,
    pub n_sats: u8,
    pub flags: u8,
}

// The bytes that the two have in common.
impl NedVector {
    fn inside(s: &[u8]) -> NedVector
        ensures { result ≡ inside vel_ned s.now }
    {
        NedVector {
            tow: u32::read(s, 0),
            n: i32::read(s, 4),
            e: i32::read(s, 8),
            d: i32::read(s, 12),
            h_accuracy: u16::read(s, 16),
            v_accuracy: u16::read(s, 18),
            n_sats: u8::read(s, 20),
            flags: u8::read(s, 21),
        }
    }

    fn store(self, buf: &mut [u8])
        ensures { buf.new ≡ body_stored vel_ned.layout (vel_ned.row self) buf.old 6 }
    {
        self.tow.store(buf, 6);
        self.n.store(buf, 10);
        self.e.store(buf, 14);
        self.d.store(buf, 18);
        self.h_accuracy.store(buf, 22);
        self.v_accuracy.store(buf, 24);
        self.n_sats.store(buf, 26);
        self.flags.store(buf, 27);
    }
}

// BASELINE_NED: the flags have a fix mode.
pub struct BaselineNed;

impl FixedMessage for BaselineNed {
    type Record = NedVector;

    const KIND: u16 = 0x0203;

    const LENGTH: usize = 22;

    ghost KIND = { 0x0203 };

    ghost LENGTH = { 22 };

    ghost description = { baseline_ned };

    fn take(s: &[u8]) -> NedVector {
        NedVector::inside(s)
    }

    fn put(buf: &mut [u8], r: NedVector) {
        r.store(buf);
    }

    fn allowed(r: NedVector) -> bool {
        fix_allowed(r.flags, 1)
    }

    ghost fixed = { baseline_fixed };
}

// VEL_NED: any flags.
pub struct VelNed;

impl FixedMessage for VelNed {
    type Record = NedVector;

    const KIND: u16 = 0x0205;

    const LENGTH: usize = 22;

    ghost KIND = { 0x0205 };

    ghost LENGTH = { 22 };

    ghost description = { vel_ned };

    fn take(s: &[u8]) -> NedVector {
        NedVector::inside(s)
    }

    fn put(buf: &mut [u8], r: NedVector) {
        r.store(buf);
    }

    fn allowed(_r: NedVector) -> bool {
        true
    }

    ghost fixed = { vel_fixed };
}
