// Doubles through Double: read from bytes, and written back.
use std::io::Stdout;
use wire::{Double, InBytes};

// Both zeros, one, both ends of the subnormals, the least and the greatest normal.
const FINITE: [u64; 7] = [
    0x0000_0000_0000_0000,
    0x8000_0000_0000_0000,
    0x3ff0_0000_0000_0000,
    0x0000_0000_0000_0001,
    0x000f_ffff_ffff_ffff,
    0x0010_0000_0000_0000,
    0x7fef_ffff_ffff_ffff,
];

// Both infinities; signalling and quiet NaNs, plain, with a payload, and negative.
const OTHERS: [u64; 7] = [
    0x7ff0_0000_0000_0000,
    0xfff0_0000_0000_0000,
    0x7ff0_0000_0000_0001,
    0x7ff8_0000_0000_0000,
    0x7ff8_dead_beef_0001,
    0xfff4_0000_0000_0000,
    0xffff_ffff_ffff_ffff,
];

pub fn run(out: Stdout) {
    for n in FINITE {
        line(out, n);
    }
    for n in OTHERS {
        line(out, n);
    }
    made(out);
}

// The pattern, whether its value is a NaN, the pattern kept beside it, and the pattern written back.
fn line(out: Stdout, n: u64) {
    let mut buf = [0u8; 8];
    n.store(&mut buf, 0);
    let d = Double::read(&buf, 0);
    let is_nan = u8::from(d.value.is_nan());
    let kept = d.nan;
    // into fresh bytes, so that a store that writes nothing is seen
    let mut back = [0u8; 8];
    d.store(&mut back, 0);
    let written = u64::read(&back, 0);
    let _ = println!(out; "double {n:016x} {is_nan} {kept:016x} {written:016x}");
}

// Values that no reading makes: a NaN with no NaN's pattern, and a number with a pattern beside it.
fn made(out: Stdout) {
    let lost = Double {
        value: f64::NAN,
        nan: 7,
    };
    let stray = Double {
        value: 1.0,
        nan: 0x7ff8_0000_0000_0001,
    };
    let _ = println!(out; "double nan-without-pattern {:016x}", lost.bits());
    let _ = println!(out; "double one-with-pattern {:016x}", stray.bits());
}
