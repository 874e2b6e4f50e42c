// The CRC of few bytes, and of many.
ghost use Rattle.std.specs.Prelude.{◌≡◌, ◌≤◌, ◌<◌, length};
ghost use Rattle.crc.specs.Crc.{crc_from};

use crate::bytes::{early, few, first, late, word};
use crate::folding::{Pair, Words, one_of, register, stepped, turned_all, two_of};

// Fewer than eight bytes are a number of one word. What the start adds past their end stays in the register.
pub(crate) fn of_few(start: u16, s: &[u8]) -> u16
    requires { length s.now < 8 }
    ensures { result ≡ crc_from start s.now }
{
    let k = s.len();
    register(few(s) ^ early(start, k)) ^ late(start, k)
}

// Of more, the first n % 8 make the first word, so that the others are whole. Two words or three are done without four.
pub(crate) fn of_many(start: u16, s: &[u8]) -> u16
    requires { 8 ≤ length s.now }
    ensures { result ≡ crc_from start s.now }
{
    let k = s.len() % 8;
    let a = first(s, k) ^ early(start, k);
    let b = word(s, k) ^ ((late(start, k) as u64) << 48);
    let from = k + 8;
    if s.len() - from < 16 {
        let two = Pair { a, b };
        if from < s.len() {
            return register(one_of(stepped(two, word(s, from))));
        }
        return register(one_of(two));
    }
    let four = Words {
        a,
        b,
        c: word(s, from),
        d: word(s, from + 8),
    };
    register(one_of(two_of(turned_all(four, s, from + 16))))
}
