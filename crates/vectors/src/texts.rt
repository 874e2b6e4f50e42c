// The text of LOG payloads, with zeros after it and without; one that is refused has a text too.
use crate::hex::Hex;
use crate::payload::{front, mixed};
use std::io::Stdout;
use wire::InBytes;

// How many bytes come before the zeros, where a letter stands, if one does, and how long the payload is.
type Case = (usize, Option<usize>, usize);

// Zeros after the level and the text, or none.
const PADDED: [Case; 10] = [
    (0, None, 0),
    (1, None, 1),
    (9, None, 9),
    (9, None, 10),
    (9, None, 200),
    (1, None, 255),
    (0, None, 5),
    (255, None, 255),
    (254, None, 255),
    (256, None, 256),
];

// A letter after a zero; a level of 0, which ends nothing.
const MARKED: [Case; 6] = [
    (9, Some(10), 20),
    (9, Some(19), 20),
    (9, Some(9), 20),
    (0, Some(1), 6),
    (0, Some(2), 6),
    (9, Some(200), 256),
];

pub fn run(out: Stdout) {
    for case in PADDED {
        text(out, case);
    }
    for case in MARKED {
        text(out, case);
    }
}

// The bytes are odd, so that none is zero.
fn text(out: Stdout, (k, letter, n): Case) {
    let mut bytes = [0u8; 256];
    wire::store_bytes(&mut bytes, 0, front(&mixed(65, 6), k));
    if let Some(at) = letter {
        b'A'.store(&mut bytes, at);
    }
    let payload = front(&bytes, n);
    let _ = println!(out;
        "log-text {} {}",
        payload.len(),
        Hex(logs::log_text(payload))
    );
}
