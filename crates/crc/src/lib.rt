// The CRC, which goes on from a given value: a frame's starts at 0. Read specs/Crc.antt first: the single-bit step, eight of them for a byte, a
// fold over the bytes.
// The code has no table. It takes the bytes for one number, eight of them at a time, and works out what that number leaves in the register:
// bytes.rt makes words of bytes, folding.rt makes one word of many that leaves the same, by_length.rt says how many there are.
#![tactic(auto)]

ghost use Rattle.std.specs.Prelude.{◌≡◌, ◌++◌};
ghost use Rattle.crc.specs.Crc.{crc_from};

mod by_length;
mod bytes;
mod folding;

use by_length::{of_few, of_many};

// The CRC of s, begun at start: 0, or what the bytes before s came to.
pub fn crc(start: u16, s: &[u8]) -> u16
    ensures { result ≡ crc_from start s.now }
{
    if s.len() < 8 {
        return of_few(start, s);
    }
    of_many(start, s)
}

// The CRC of two parts that lie apart, as if they stood joined.
pub fn crc_apart(start: u16, first: &[u8], second: &[u8]) -> u16
    ensures { result ≡ crc_from start (first.now ++ second.now) }
{
    let between = crc(start, first);
    crc(between, second)
}
