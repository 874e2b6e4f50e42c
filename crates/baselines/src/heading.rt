// BASELINE_HEADING, 0x0207: the heading from base to rover, in 1/1000 degree.
ghost use Rattle.std.specs.Prelude.{◌≡◌};
ghost use Rattle.baselines.specs.Heading.{baseline_heading, fixed};

use flags::fix_allowed;
use frame_writer::FixedMessage;
use wire::InBytes;

#[derive(Clone, Copy)]
pub struct BaselineHeading {
    pub tow: u32,
    pub heading: u32,
    pub n_sats: u8,
    pub flags: u8,
}

impl FixedMessage for BaselineHeading {
    type Record = BaselineHeading;

    const KIND: u16 = 0x0207;

    const LENGTH: usize = 10;

    ghost KIND = { 0x0207 };

    ghost LENGTH = { 10 };

    ghost description = { baseline_heading };

    fn take(s: &[u8]) -> BaselineHeading {
        BaselineHeading {
            tow: u32::read(s, 0),
            heading: u32::read(s, 4),
            n_sats: u8::read(s, 8),
            flags: u8::read(s, 9),
        }
    }

    fn put(buf: &mut [u8], r: BaselineHeading) {
        r.tow.store(buf, 6);
        r.heading.store(buf, 10);
        r.n_sats.store(buf, 14);
        r.flags.store(buf, 15);
    }

    fn allowed(r: BaselineHeading) -> bool {
        fix_allowed(r.flags, 1)
    }

    ghost fixed = { fixed };
}
