// Open reading from a position on. What a cursor counts is not looked at.
ghost use Rattle.std.specs.Prelude.{◌≡◌};
ghost use Rattle.frames.specs.Cursors.{next_of};
ghost use Rattle.index.specs.Inner.{cursor_at};

use frames::{Cursor, Next};

pub(crate) fn after(s: &[u8], at: usize) -> Next
    ensures { result ≡ next_of s.now (cursor_at at) }
{
    let c = Cursor {
        at,
        opened: true,
        framed: 0,
        junk: 0,
        bad: 0,
        short: 0,
    };
    c.next(s)
}
