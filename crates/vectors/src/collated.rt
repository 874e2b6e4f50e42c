// Whole captures collated: two with the same frames for each sender, in order, and shuffled between senders, with noise and an unlisted sender.
use epochs::Collator;
use refusals::Refusal;
use senders::Writer;
use std::io::Stdout;
use wire::InBytes;

// A frame without observations takes 15 bytes.
pub fn run(out: Stdout) {
    let mut ordered = [0u8; 90];
    put_all(&mut ordered, [0, 15, 30], [45, 60, 75]);
    counted(out, "ordered", &ordered);
    // three bytes of noise before, five between
    let mut shuffled = [0u8; 113];
    put_all(&mut shuffled, [18, 48, 98], [3, 68, 83]);
    put(&mut shuffled, 33, 77, 10, 0x21);
    counted(out, "shuffled", &shuffled);
    nobody(out, &[]);
    nobody(out, &[1, 2, 3, 4, 5, 6, 7, 8, 9]);
    nobody(out, &[5, 6, 5]);
}

// The base's and the rover's frames at their places: an epoch of two, and of the base one of one, of the rover half of one.
fn put_all(buf: &mut [u8], base: [usize; 3], rover: [usize; 3]) {
    put(buf, base[0], 1228, 10, 0x20);
    put(buf, base[1], 1228, 10, 0x21);
    put(buf, base[2], 1228, 20, 0x10);
    put(buf, rover[0], 0, 10, 0x20);
    put(buf, rover[1], 0, 10, 0x21);
    put(buf, rover[2], 0, 20, 0x20);
}

// An OBS frame at buf[at..], where it fits: its time, n and counter.
fn put(buf: &mut [u8], at: usize, sender: u16, tow: u32, n_obs: u8) {
    let mut payload = [0u8; 7];
    tow.store(&mut payload, 0);
    1900u16.store(&mut payload, 4);
    n_obs.store(&mut payload, 6);
    if let Some(rest) = buf.get_mut(at..) {
        let _ = frame_writer::write_frame(rest, 0x0049, Writer::made(0x42).named(sender), &payload);
    }
}

// 0 and how many epochs each sender of the roster has, or the refusal.
fn counted(out: Stdout, name: &str, s: &[u8]) {
    let _ = match captures::collate(s, &[1228, 0]) {
        Ok(c) => {
            let reports = c.reports;
            let base = reports[0];
            let rover = reports[1];
            println!(out; "{name} 0 {base} {rover}")
        }
        Err(e) => println!(out; "{name} {} 0 0", e.number()),
    };
}

// The collator of a refused roster lists nobody: a line where it takes a whole epoch of sender 5, and else none.
fn nobody(out: Stdout, roster: &[u16]) {
    let mut collator = Collator::made_or_empty(roster);
    match collator.feed(0x0049, 5, &[10, 0, 0, 0, 0x6c, 0x07, 0x10]) {
        Err(Refusal::NotListed) => {}
        _ => {
            let _ = println!(out; "taken for a refused roster");
        }
    }
}
