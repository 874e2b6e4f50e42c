// Whether a list has room for what it has to hold.
ghost use Rattle.std.specs.Prelude.{◌≡◌, ◌+◌, ◌≤◌, length, nat_le};
ghost use Rattle.index.specs.Index.{frames_from};

use crate::reading::after;
use frames::Next;

// Whether no more than so many frames are left from a position on.
fn no_more_than(room: usize, s: &[u8], from: usize) -> bool
    requires { from ≤ length s.now }
    ensures { result ≡ nat_le (length (frames_from s.now from)) room }
{
    let mut left = room;
    let mut at = from;
    while let Next::Frame(_, c) = after(s, at) {
        if left == 0 {
            return false;
        }
        left -= 1;
        at = c.at;
    }
    true
}

// Whether a list has room for the frames held and those left. A frame has 8 bytes or more, so that a long list need not be measured.
pub(crate) fn roomy(most: usize, held: usize, s: &[u8], from: usize) -> bool
    requires { from ≤ length s.now }
    ensures { result ≡ nat_le (held + length (frames_from s.now from)) most }
{
    if most < held {
        return false;
    }
    let room = most - held;
    (s.len() - from) / 8 <= room || no_more_than(room, s, from)
}
