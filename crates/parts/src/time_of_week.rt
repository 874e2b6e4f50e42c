// A time: ms of a GPS week, and the week. It stands at several offsets, all of which a byte holds.
// Parts have no trait: nothing is generic over a part, and one that holds parts adds to its offset, which a method without `requires` cannot bound.
ghost use Rattle.std.specs.Prelude.{◌≡◌};
ghost use Rattle.layouts.specs.Together.{taken_at, put_at};
ghost use Rattle.parts.specs.TimeOfWeek.{time_of_week};

use wire::InBytes;

#[derive(Clone, Copy)]
pub struct TimeOfWeek {
    pub tow: u32,
    pub wn: u16,
}

impl TimeOfWeek {
    pub fn take(s: &[u8], at: u8) -> TimeOfWeek
        ensures { result ≡ taken_at time_of_week s.now at }
    {
        let start = at as usize;
        TimeOfWeek {
            tow: u32::read(s, start),
            wn: u16::read(s, start + 4),
        }
    }

    pub fn put(self, buf: &mut [u8], at: u8)
        ensures { buf.new ≡ put_at time_of_week self buf.old at }
    {
        let start = at as usize;
        self.tow.store(buf, start);
        self.wn.store(buf, start + 4);
    }
}
