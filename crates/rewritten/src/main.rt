// Reads a payload of every message as its record, writes that by the message's own writer, and holds the frame against the raw frame of the same
// payload; and asks the message's own reader at this length and at one byte more. The linked functions go by rows, so that nothing else runs these.
// The file stdout beside src/ has the answers, which the Python twin works out from documents 01 and 003 (twins/python/answers.py). What is proved
// here is that the program ends and traps nowhere, not what it prints.
#![tactic(auto)]

mod asking;
mod hex;
mod payload;
mod walking;
mod writing;

use crate::hex::Hex;
use crate::payload::{front, mixed};
use std::io::Stdout;
use wire::InBytes;

// A type, the seed of its payload, and how long it is. The seeds are such that flags have a fix mode in its range; the OBS has two observations.
const MIXED: [(u16, u8, usize); 17] = [
    (0x0206, 5, 14),
    (0x0200, 5, 32),
    (0x0201, 5, 34),
    (0x0202, 2, 20),
    (0x0204, 5, 20),
    (0x0203, 7, 22),
    (0x0205, 5, 22),
    (0x0207, 4, 10),
    (0x0044, 5, 24),
    (0x0048, 5, 24),
    (0x0081, 5, 185),
    (0x0082, 5, 112),
    (0x0083, 5, 112),
    (0x0090, 5, 70),
    (0x0091, 5, 10),
    (0x0092, 5, 14),
    (0x0049, 3, 39),
];

const SYSTEM: [(u16, u8, usize); 5] = [
    (0x00a1, 5, 0),
    (0x00a6, 5, 0),
    (0x00a2, 5, 2),
    (0xff00, 5, 4),
    (0xffff, 5, 4),
];

fn main(rt: HostRuntime) {
    let out = rt.stdout();
    time(out);
    for (kind, seed, n) in MIXED {
        line(out, kind, &mixed(seed, 37), n);
    }
    text(out);
    for (kind, seed, n) in SYSTEM {
        line(out, kind, &mixed(seed, 37), n);
    }
}

// GPS_TIME with the least ns that its range has, -500000.
fn time(out: Stdout) {
    let mut s = mixed(5, 37);
    (-500000i32).store(&mut s, 6);
    line(out, 0x0100, &s, 11);
}

// LOG of the greatest length: odd bytes, and two zeros after them.
fn text(out: Stdout) {
    let mut s = mixed(1, 2);
    0u16.store(&mut s, 253);
    line(out, 0x0401, &s, 255);
}

// The type; what `read` answers, with the frame that the message's own writer makes, and whether it is the raw one; what the message's own reader
// answers, and of one byte more. A write to standard output that fails is passed over.
fn line(out: Stdout, kind: u16, s: &[u8], n: usize) {
    let _ = print!(out; "{kind:04x}");
    again(out, kind, front(s, n));
    let here = refusals::code(asking::answer(kind, front(s, n)));
    let longer = refusals::code(asking::answer(kind, front(s, n.saturating_add(1))));
    let _ = println!(out; " {here} {longer}");
}

// Both frames go into bytes of 0xee, of which those after them stay.
fn again(out: Stdout, kind: u16, payload: &[u8]) {
    let mut own = [0xeeu8; 264];
    let mut raw = [0xeeu8; 264];
    let written = writing::write(&mut own, kind, payload);
    let _ = frame_writer::write_frame(&mut raw, kind, writing::recorder(), payload);
    let same = if own == raw { "same" } else { "differs" };
    // 0 and the frame, or the refusal
    let _ = match written {
        Ok(n) => print!(out; " 0 {} {same}", Hex(front(&own, n))),
        Err(e) => print!(out; " refused {} {same}", e.number()),
    };
}
