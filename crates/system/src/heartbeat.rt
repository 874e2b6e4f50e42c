// HEARTBEAT, 0xFFFF: the device runs, with its status flags.
ghost use Rattle.system.specs.Heartbeat.{heartbeat, fixed};

use frame_writer::FixedMessage;
use wire::InBytes;

#[derive(Clone, Copy)]
pub struct Heartbeat {
    pub flags: u32,
}

impl FixedMessage for Heartbeat {
    type Record = Heartbeat;

    const KIND: u16 = 0xffff;

    const LENGTH: usize = 4;

    ghost KIND = { 0xffff };

    ghost LENGTH = { 4 };

    ghost description = { heartbeat };

    fn take(s: &[u8]) -> Heartbeat {
        Heartbeat {
            flags: u32::read(s, 0),
        }
    }

    fn put(buf: &mut [u8], r: Heartbeat) {
        r.flags.store(buf, 6);
    }

    fn allowed(_r: Heartbeat) -> bool {
        true
    }

    ghost fixed = { fixed };
}
