// Bytes as numbers, highest first, and where among them a start is added: to the first two.
ghost use Rattle.std.specs.Prelude.{◌≡◌, ◌+◌, ◌*◌, ◌/◌, ◌%◌, ◌^◌, ◌≤◌, ◌<◌, length, get_or, take, drop};
ghost use Rattle.crc.specs.Inner.{number_of};

fn pair(s: &[u8], i: usize) -> u64
    requires { i + 2 ≤ length s.now }
    ensures { (result ≡ get_or s.now i 0 * 256 + get_or s.now (i + 1) 0) × (result < 65536) }
{
    let high = s[i];
    let low = s[i + 1];
    (high as u64) * 256 + (low as u64)
}

// Four pairs. As one flat sum of pairs eight bytes are one load.
fn of_pairs(p: u64, q: u64, r: u64, t: u64) -> u64
    requires { (p < 65536) × (q < 65536) × (r < 65536) × (t < 65536) }
    ensures { result ≡ p * 281474976710656 + q * 4294967296 + r * 65536 + t }
{
    p * 0x1_0000_0000_0000 + q * 0x1_0000_0000 + r * 0x1_0000 + t
}

// Eight bytes.
pub(crate) fn word(s: &[u8], i: usize) -> u64
    requires { i + 8 ≤ length s.now }
    ensures { result ≡ number_of (take 8 (drop i s.now)) }
{
    of_pairs(pair(s, i), pair(s, i + 2), pair(s, i + 4), pair(s, i + 6))
}

// Fewer than eight bytes.
pub(crate) fn few(s: &[u8]) -> u64
    requires { length s.now < 8 }
    ensures { result ≡ number_of s.now }
{
    let mut n: u64 = 0;
    for b in s {
        n = (n << 8) ^ (*b as u64);
    }
    n
}

// The first k of eight bytes or more, k below 8. 0 is set apart, as the shift would be by 64; with two shifts instead of one the back end reads
// seven single bytes and no word.
pub(crate) fn first(s: &[u8], k: usize) -> u64
    requires { (8 ≤ length s.now) × (k < 8) }
    ensures { result ≡ number_of (take k s.now) }
{
    if k == 0 {
        return 0;
    }
    word(s, 0) >> (64 - 8 * k)
}

// What a start adds to the first k bytes, and what is left of it for the two after them. It is moved up by 40 first, so that one shift down does
// for every k.
pub(crate) fn early(start: u16, k: usize) -> u64
    requires { k < 8 }
    ensures { result ≡ start * 2 ^ (8 * k) / 65536 }
{
    ((start as u64) << 40) >> (56 - 8 * k)
}

pub(crate) fn late(start: u16, k: usize) -> u16
    requires { k < 8 }
    ensures { result ≡ start * 2 ^ (8 * k) % 65536 }
{
    (((start as u64) << (8 * k)) % 65536) as u16
}
