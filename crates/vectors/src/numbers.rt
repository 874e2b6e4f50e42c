// Numbers at their ends, read and stored, within the bytes and past them. What a line is about is told by its number.
use crate::hex::Hex;
use std::io::Stdout;
use wire::InBytes;

pub fn run(out: Stdout) {
    // past the end a byte reads 0
    for at in [0, 4, 7, 8, usize::MAX] {
        reads(out, at);
    }
    // the least and the greatest of 16 and of 32 bits, and -1
    for n in [
        0x0000_8000,
        0x0000_7fff,
        0x8000_0000,
        0x7fff_ffff,
        0xffff_ffff,
    ] {
        signs(out, n);
    }
    // a store that runs past the end changes nothing
    for at in [0, 3, 5, 7, 9, usize::MAX] {
        stores(out, at);
    }
}

// u8, u16, u32 and u64 at an offset.
fn reads(out: Stdout, at: usize) {
    let s = [0x01, 0x02, 0x03, 0x04, 0x85, 0x86, 0x87, 0x88];
    let byte = u8::read(&s, at);
    let two = u16::read(&s, at);
    let four = u32::read(&s, at);
    let eight = u64::read(&s, at);
    let _ = println!(out; "read-at {at} {byte} {two} {four} {eight}");
}

// s16 and s32 of the bytes of a number, and the bytes that storing them leaves.
fn signs(out: Stdout, n: u32) {
    let mut buf = [0u8; 6];
    n.store(&mut buf, 0);
    let half = i16::read(&buf, 0);
    let whole = i32::read(&buf, 0);
    half.store(&mut buf, 0);
    whole.store(&mut buf, 2);
    let _ = println!(out; "signed {n:08x} {half} {whole} {}", Hex(&buf));
}

// Nine bytes after a store of each width, one into what the one before left.
fn stores(out: Stdout, at: usize) {
    let mut buf = [0x11u8; 9];
    let _ = print!(out; "store-at {at}");
    0xa1u8.store(&mut buf, at);
    let _ = print!(out; " {}", Hex(&buf));
    0xb2b1u16.store(&mut buf, at);
    let _ = print!(out; " {}", Hex(&buf));
    0xc4c3_c2c1u32.store(&mut buf, at);
    let _ = print!(out; " {}", Hex(&buf));
    0xd8d7_d6d5_d4d3_d2d1u64.store(&mut buf, at);
    let _ = println!(out; " {}", Hex(&buf));
}
