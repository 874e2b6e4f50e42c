// READ_BY_INDEX_REQ, 0x00A2: asks for the setting at an index.
ghost use Rattle.system.specs.ReadByIndexReq.{read_by_index_req, fixed};

use frame_writer::FixedMessage;
use wire::InBytes;

#[derive(Clone, Copy)]
pub struct ReadByIndexReq {
    pub index: u16,
}

impl FixedMessage for ReadByIndexReq {
    type Record = ReadByIndexReq;

    const KIND: u16 = 0x00a2;

    const LENGTH: usize = 2;

    ghost KIND = { 0x00a2 };

    ghost LENGTH = { 2 };

    ghost description = { read_by_index_req };

    fn take(s: &[u8]) -> ReadByIndexReq {
        ReadByIndexReq {
            index: u16::read(s, 0),
        }
    }

    fn put(buf: &mut [u8], r: ReadByIndexReq) {
        r.index.store(buf, 6);
    }

    fn allowed(_r: ReadByIndexReq) -> bool {
        true
    }

    ghost fixed = { fixed };
}
