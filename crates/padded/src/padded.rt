// A text with zeros after it: how long it is, whether it has a zero, whether all that follows is zero, and zeros stored.
ghost use Rattle.std.specs.Prelude.{◌≡◌, true, false, cond, ◌≤◌, eqb, length, drop};
ghost use Rattle.wire.specs.Number.{bytes_stored};
ghost use Rattle.padded.specs.Padded.{before_zero, no_zero, all_zero, zeros};

use wire::room;

// There is no way out before the end, so that the compiler tests many bytes at once.
pub fn no_zero(s: &[u8]) -> bool
    ensures { result ≡ no_zero s.now }
{
    let mut clean = true;
    for b in s {
        clean &= *b != 0;
    }
    clean
}

// A length from which on there are zeros alone. How short it is decides only how soon a text is found.
fn trimmed(s: &[u8]) -> usize
    ensures { (result ≤ length s.now) × (all_zero (drop result s.now) ≡ true) }
{
    for i in (0..s.len()).rev() {
        if s[i] != 0 {
            return i + 1;
        }
    }
    0
}

fn first_zero(s: &[u8]) -> usize
    ensures { result ≡ length (before_zero s.now) }
{
    for (i, b) in s.iter().enumerate() {
        if *b == 0 {
            return i;
        }
    }
    s.len()
}

// How many bytes stand before the first zero. A text with zeros after it, which most are, is not searched byte by byte.
pub fn text_length(s: &[u8]) -> usize
    ensures { result ≡ length (before_zero s.now) }
{
    let n = trimmed(s);
    if no_zero(&s[0..n]) {
        return n;
    }
    first_zero(s)
}

pub fn all_zero(s: &[u8]) -> bool
    ensures { result ≡ all_zero s.now }
{
    s.iter().all(|b| *b == 0)
}

pub fn store_zeros(buf: &mut [u8], at: usize, n: usize)
    ensures { buf.new ≡ bytes_stored (zeros n) buf.old at }
{
    if room(buf.len(), at, n) {
        let end = at + n;
        buf[at..end].fill(0);
    }
}
