// Packets of one epoch in counter order and not: the step of `runs`, which no collator takes any more.
use packets::{Key, Packet};
use std::io::Stdout;

pub fn run(out: Stdout) {
    three(out, [0, 1, 2]);
    three(out, [0, 2, 1]);
}

// The counters of three packets as they come, and the epoch where one ends. Packet i has 8 + i observations.
fn three(out: Stdout, counters: [u8; 3]) {
    let _ = print!(out; "run");
    let mut open = None;
    for counter in counters {
        let packet = Packet {
            key: Key {
                tow: 5,
                wn: 6,
                n: 3,
            },
            counter,
            observations: 8 | counter,
        };
        let step = runs::step(open, packet);
        let _ = print!(out; " {counter}");
        if let Some(total) = step.ended {
            let _ = print!(out; " epoch {total}");
        }
        open = step.run;
    }
    let _ = println!(out;);
}
