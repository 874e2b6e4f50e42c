// An entry of the list: a frame's position, type, sender and payload length.
ghost use Rattle.std.specs.Prelude.{◌≡◌};
ghost use Rattle.index.specs.Index.{entry_of, hits};

// As C has it (link/include/sbp.h).
#[repr(C)]
#[derive(Clone, Copy)]
pub struct Entry {
    pub offset: u64,
    pub kind: u16,
    pub sender: u16,
    pub length: u8,
}

impl Entry {
    pub(crate) fn of(f: frames::Frame) -> Entry
        ensures { result ≡ entry_of f }
    {
        Entry {
            offset: f.at as u64,
            kind: f.kind,
            sender: f.sender,
            length: f.length,
        }
    }

    // Whether it is one of that type and sender, at or after an offset.
    pub(crate) fn hits(self, kind: u16, sender: u16, offset: u64) -> bool
        ensures { result ≡ hits kind sender offset self }
    {
        self.kind == kind && self.sender == sender && offset <= self.offset
    }
}
