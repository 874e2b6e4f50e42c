// Words that leave the same in the register as more of them do. Where T is the single-bit step, T^16 = T^12 + T^5 + 1 by the polynomial, and
// squared, T^(16 s) = T^(12 s) + T^(5 s) + 1 for each power of two s (proofs/Turning.antt): what stands 16 s bits up may be added 12 s bits up,
// 5 s bits up and where the number ends instead.
ghost use Rattle.std.specs.Prelude.{◌≡◌, ◌-◌, ◌*◌, ◌%◌, ◌^◌, ◌≤◌, ◌<◌, length, drop};
ghost use Rattle.crc.specs.Inner.{behind, rest, then, joined, above};

use crate::bytes::word;

// The last words of a number, the highest first.
#[derive(Clone, Copy)]
pub(crate) struct Words {
    pub(crate) a: u64,
    pub(crate) b: u64,
    pub(crate) c: u64,
    pub(crate) d: u64,
}

// A word more, at s = 16: what falls out, 256 bits up, goes 192, 80 and 0 bits up.
fn turned(x: Words, w: u64) -> Words
    ensures { rest (joined result) ≡ rest (then (joined x) w) }
{
    let out = x.a;
    Words {
        a: x.b ^ out,
        b: x.c ^ (out >> 48),
        c: x.d ^ (out << 16),
        d: w ^ out,
    }
}

// Four words, and all that come after.
pub(crate) fn turned_all(x: Words, s: &[u8], from: usize) -> Words
    requires { (from ≤ length s.now) × ((length s.now - from) % 8 ≡ 0) }
    ensures { rest (joined result) ≡ rest (behind (joined x) (drop from s.now)) }
{
    let mut four = x;
    for i in (from..s.len()).step_by(8) {
        four = turned(four, word(s, i));
    }
    four
}

// The last two words of a number.
#[derive(Clone, Copy)]
pub(crate) struct Pair {
    pub(crate) a: u64,
    pub(crate) b: u64,
}

// A word more, at s = 8: what falls out, 128 bits up, goes 96, 40 and 0 bits up. From 96 bits up its upper half stands 128 bits up once more: l
// has that half added before, so that the two cancel.
pub(crate) fn stepped(x: Pair, w: u64) -> Pair
    ensures { rest (then result.a result.b) ≡ rest (then (then x.a x.b) w) }
{
    let l = x.a ^ (x.a >> 32);
    Pair {
        a: x.b ^ (l << 32) ^ (l >> 24),
        b: w ^ l ^ (l << 40),
    }
}

// Four words as two.
pub(crate) fn two_of(x: Words) -> Pair
    ensures { rest (then result.a result.b) ≡ rest (joined x) }
{
    let upper = Pair { a: x.a, b: x.b };
    stepped(stepped(upper, x.c), x.d)
}

// A word divided by the polynomial at s = 4: times that, the quotient has the word above bit 64.
fn divided(r: u64) -> u64
    ensures { (above 4 result ≡ r) × (result < 2 ^ 64) }
{
    let t = r ^ (r >> 32);
    t ^ (t >> 16) ^ (t >> 44)
}

// A number 64 bits up as one word: what the quotient times the polynomial has below bit 64.
fn moved_up(r: u64) -> u64
    ensures { rest result ≡ rest (r * 2 ^ 64) }
{
    let q = divided(r);
    (q << 48) ^ (q << 20) ^ q
}

// Two words as one.
pub(crate) fn one_of(x: Pair) -> u64
    ensures { rest result ≡ rest (then x.a x.b) }
{
    moved_up(x.a) ^ x.b
}

// What a word leaves in the register, 16 bits up: divided at s = 2 and 1 as well, and then what stands below bit 16.
pub(crate) fn register(r: u64) -> u16
    ensures { result ≡ rest (r * 65536) }
{
    let u = divided(r);
    let v = u ^ (u >> 8) ^ (u >> 22) ^ (u >> 32);
    let q = v ^ (v >> 4) ^ (v >> 11) ^ (v >> 16);
    (((q << 12) ^ (q << 5) ^ q) % 65536) as u16
}
