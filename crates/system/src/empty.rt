// SETTINGS_SAVE, 0x00A1, and READ_BY_INDEX_DONE, 0x00A6: messages with no payload, and so with nothing to record.
ghost use Rattle.system.specs.Empty.{settings_save, read_by_index_done, fixed};

use frame_writer::FixedMessage;

pub struct SettingsSave;

pub struct ReadByIndexDone;

impl FixedMessage for SettingsSave {
    type Record = ();

    const KIND: u16 = 0x00a1;

    const LENGTH: usize = 0;

    ghost KIND = { 0x00a1 };

    ghost LENGTH = { 0 };

    ghost description = { settings_save };

    fn take(_s: &[u8]) {}

    fn put(_buf: &mut [u8], _r: ()) {}

    fn allowed(_r: ()) -> bool {
        true
    }

    ghost fixed = { fixed 0x00a1 };
}

impl FixedMessage for ReadByIndexDone {
    type Record = ();

    const KIND: u16 = 0x00a6;

    const LENGTH: usize = 0;

    ghost KIND = { 0x00a6 };

    ghost LENGTH = { 0 };

    ghost description = { read_by_index_done };

    fn take(_s: &[u8]) {}

    fn put(_buf: &mut [u8], _r: ()) {}

    fn allowed(_r: ()) -> bool {
        true
    }

    ghost fixed = { fixed 0x00a6 };
}
