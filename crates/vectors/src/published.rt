// The published values: the CRC of nothing, of its check text and of the example frame of 003, section 4; that frame read open and closed, with the
// fields that 003 gives a table of, which are written again; and read with a last byte that differs.
use crate::hex::Hex;
use crate::payload::front;
use crate::readings::show;
use baselines::{BaselineEcef, EcefVector};
use frame_writer::{read_message, write_message};
use frames::Step;
use senders::Writer;
use std::io::Stdout;

// The example frame of 003, section 4.
const EXAMPLE: [u8; 28] = [
    0x55, 0x02, 0x02, 0xcc, 0x04, 0x14, 0x70, 0x3d, 0xd0, 0x18, 0xcf, 0xef, 0xff, 0xff, 0xef, 0xe8,
    0xff, 0xff, 0xf0, 0x18, 0x00, 0x00, 0x00, 0x00, 0x05, 0x00, 0x43, 0x94,
];

pub fn run(out: Stdout) {
    let example = EXAMPLE;
    sum_of(out, "nothing", b"");
    sum_of(out, "123456789", b"123456789");
    // type through payload; the frame ends with 43 94
    sum_of(out, "example-frame", &example[1..26]);
    show(out, "example", &example);
    fields(out, &example);
    // a CRC that differs: bad, and on at 1
    let mut wrong = EXAMPLE;
    wrong[27] = 0x95;
    show(out, "example-damaged", &wrong);
}

fn sum_of(out: Stdout, name: &str, s: &[u8]) {
    let sum = crc::crc(0, s);
    let _ = println!(out; "crc {name} {sum:04x}");
}

// The one message that is read and written here as a record: of all the linked functions have the rows, which are proved to be the records.
fn fields(out: Stdout, s: &[u8]) {
    if let Step::Found(f) = frames::step_at(s, 0) {
        match read_message::<BaselineEcef>(frames::payload(s, f)) {
            Ok(r) => again(out, r),
            Err(e) => {
                let _ = println!(out; "baseline-ecef refused {}", e.number());
            }
        }
    }
}

// The fields, then the frame or the refusal.
fn again(out: Stdout, r: EcefVector) {
    let EcefVector {
        tow,
        x,
        y,
        z,
        accuracy,
        n_sats,
        flags,
    } = r;
    let _ = print!(out; "baseline-ecef {tow} {x} {y} {z} {accuracy} {n_sats} {flags}");
    let mut buf = [0u8; 28];
    let _ = match write_message::<BaselineEcef>(&mut buf, Writer::made(0x0201), r) {
        Ok(n) => println!(out; " {}", Hex(front(&buf, n))),
        Err(e) => println!(out; " refused {}", e.number()),
    };
}
