// GROUP_DELAY, 0x0092: a satellite's group delays, signed, in 2^-35 s.
ghost use Rattle.atmosphere.specs.GroupDelay.{group_delay, fixed};

use frame_writer::FixedMessage;
use parts::TimeOfWeek;
use wire::InBytes;

#[derive(Clone, Copy)]
pub struct GroupDelay {
    pub t_op: TimeOfWeek,
    pub prn: u8,
    pub valid: u8,
    pub tgd: i16,
    pub isc_l1ca: i16,
    pub isc_l2c: i16,
}

impl FixedMessage for GroupDelay {
    type Record = GroupDelay;

    const KIND: u16 = 0x0092;

    const LENGTH: usize = 14;

    ghost KIND = { 0x0092 };

    ghost LENGTH = { 14 };

    ghost description = { group_delay };

    fn take(s: &[u8]) -> GroupDelay {
        GroupDelay {
            t_op: TimeOfWeek::take(s, 0),
            prn: u8::read(s, 6),
            valid: u8::read(s, 7),
            tgd: i16::read(s, 8),
            isc_l1ca: i16::read(s, 10),
            isc_l2c: i16::read(s, 12),
        }
    }

    fn put(buf: &mut [u8], r: GroupDelay) {
        r.t_op.put(buf, 6);
        r.prn.store(buf, 12);
        r.valid.store(buf, 13);
        r.tgd.store(buf, 14);
        r.isc_l1ca.store(buf, 16);
        r.isc_l2c.store(buf, 18);
    }

    fn allowed(_r: GroupDelay) -> bool {
        true
    }

    ghost fixed = { fixed };
}
