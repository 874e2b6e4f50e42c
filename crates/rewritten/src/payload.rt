// Payloads to try.
// The other program of outside values has the same file: a library of thirty lines for two programs would be no plainer.

// Byte i is seed + step * i, so that neighbours differ.
pub fn mixed(seed: u8, step: u8) -> [u8; 300] {
    let mut b = seed;
    std::array::from_fn(|_| {
        let now = b;
        b = b.wrapping_add(step);
        now
    })
}

// The first n bytes, or all where there are fewer.
pub fn front(s: &[u8], n: usize) -> &[u8] {
    s.get(..n).unwrap_or(s)
}
