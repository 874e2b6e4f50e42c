// The CRC of two parts that lie apart, from a start: what is linked takes it from 0 alone.
use crate::payload::{front, mixed};
use std::io::Stdout;

// The check text cut at each of its ten places; then parts of 0, 1 and 255 bytes.
pub fn run(out: Stdout) {
    let check = b"123456789";
    let first = mixed(3, 37);
    let second = mixed(9, 41);
    for start in [0, 1, 65535] {
        for at in 0..=check.len() {
            parts(out, start, &check[..at], &check[at..]);
        }
        for n in [0, 1, 255] {
            for m in [0, 1, 255] {
                parts(out, start, front(&first, n), front(&second, m));
            }
        }
    }
}

fn parts(out: Stdout, start: u16, first: &[u8], second: &[u8]) {
    let sum = crc::crc_apart(start, first, second);
    let _ = println!(out;
        "crc-apart-from {start} {} {} {sum:04x}",
        first.len(),
        second.len()
    );
}
