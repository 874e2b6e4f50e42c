// The observation reader: payloads asked for one observation after the other, and some past the last.
use crate::payload::{front, mixed};
use observation::Observation;
use refusals::Refusal;
use std::fmt;
use std::io::Stdout;

pub fn run(out: Stdout) {
    let s = mixed(3, 37);
    let t = mixed(9, 41);
    walk(out, 0x0049, front(&s, 39));
    walk(out, 0x0049, front(&s, 8));
    walk(out, 0x0049, front(&s, 7));
    walk(out, 0x0049, front(&t, 55));
    // of another type: 21, and it stays
    walk(out, 0x004a, front(&s, 39));
}

fn walk(out: Stdout, kind: u16, payload: &[u8]) {
    let _ = print!(out; "walk {}", payload.len());
    let mut at = 0;
    for _ in 0..5 {
        let step = obs_reader::step_from(kind, payload, at);
        at = step.at;
        let _ = print!(out; " {} at {at}", Answered(step.answer));
    }
    let _ = println!(out;);
}

// An observation's fields, or the refusal.
#[derive(Clone, Copy)]
struct Answered(Result<Observation, Refusal>);

impl fmt::Display for Answered {
    fn fmt<W: fmt::Write>(&self, f: &mut fmt::Formatter<W>) -> fmt::Result {
        match self.0 {
            Ok(o) => write!(
                f,
                "{} {} {} {} {} {} {} {}",
                o.p, o.l_i, o.l_f, o.cn0, o.lock, o.sat, o.code, o.reserved
            ),
            Err(e) => write!(f, "refused {}", e.number()),
        }
    }
}
