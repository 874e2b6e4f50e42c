// A capture read frame by frame, open and closed, with counts that a cursor carries from frame to frame: what is linked begins them anew at each.
use crate::hex::Hex;
use frames::{Counts, Cursor, Frame, Next};
use std::fmt;
use std::io::Stdout;

// Noise, a frame, noise, and a byte that begins a frame.
pub fn run(out: Stdout) {
    show(
        out,
        "noise-around",
        &[
            0x01, 0x55, 0x00, 0x00, 0x00, 0x00, 0x00, 0x00, 0x00, 0x02, 0x03, 0x55,
        ],
    );
}

// Each frame with its payload, then the counts; open, then closed.
pub fn show(out: Stdout, name: &str, s: &[u8]) {
    let _ = print!(out; "open {name}");
    walk(out, Cursor::opened(), s);
    let _ = print!(out; "closed {name}");
    walk(out, Cursor::closed(), s);
    let _ = println!(out; "totals {name} {}", Told(frames::totals(s)));
}

// A reading of one frame at most, and how it ends.
fn walk(out: Stdout, start: Cursor, s: &[u8]) {
    let mut next = start.next(s);
    if let Next::Frame(f, after) = next {
        frame(out, f, s);
        next = after.next(s);
    }
    let _ = match next {
        Next::Frame(_, _) => println!(out; " more"),
        Next::End(after) => println!(out; " end {}", Told(after.counts())),
        Next::Needs(n, after) => println!(out; " needs {n} {}", Told(after.counts())),
    };
}

fn frame(out: Stdout, f: Frame, s: &[u8]) {
    let payload = Hex(frames::payload(s, f));
    let Frame {
        at,
        kind,
        sender,
        length,
    } = f;
    let _ = print!(out; " frame {at} {kind} {sender} {length} {payload}");
}

// Frame bytes, junk, bad, short.
#[derive(Clone, Copy)]
struct Told(Counts);

impl fmt::Display for Told {
    fn fmt<W: fmt::Write>(&self, f: &mut fmt::Formatter<W>) -> fmt::Result {
        let c = self.0;
        write!(f, "{} {} {} {}", c.framed, c.junk, c.bad, c.short)
    }
}
