// STARTUP, 0xFF00: the device has started.
ghost use Rattle.system.specs.Startup.{startup, fixed};

use frame_writer::FixedMessage;
use wire::InBytes;

#[derive(Clone, Copy)]
pub struct Startup {
    pub reserved: u32,
}

impl FixedMessage for Startup {
    type Record = Startup;

    const KIND: u16 = 0xff00;

    const LENGTH: usize = 4;

    ghost KIND = { 0xff00 };

    ghost LENGTH = { 4 };

    ghost description = { startup };

    fn take(s: &[u8]) -> Startup {
        Startup {
            reserved: u32::read(s, 0),
        }
    }

    fn put(buf: &mut [u8], r: Startup) {
        r.reserved.store(buf, 6);
    }

    fn allowed(_r: Startup) -> bool {
        true
    }

    ghost fixed = { fixed };
}
