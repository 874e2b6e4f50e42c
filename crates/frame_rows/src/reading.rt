// The next frame of a capture, as a row of numbers in a lent buffer.
ghost use Rattle.std.specs.Prelude.{◌≡◌, length};
ghost use Rattle.refusals.specs.Refusals.{as_number};
ghost use Rattle.refusals.specs.Numbers.{answer_of};
ghost use Rattle.layouts.specs.Field.{row_stored};
ghost use Rattle.frames.specs.Cursors.{reached_in};
ghost use Rattle.frames.specs.declared.cursor.Next.{Next};
ghost use Rattle.frame_rows.specs.Found.{found_fields, found_values, found_in, found_number, number_in, next_answer, next_stored};

use crate::sizes::FOUND_SIZE;
use frames::{Cursor, Reached};
use refusals::Refusal;
use wire::InBytes;

// Where a frame was found or the reading stands, where to go on, the bytes needed from there, those passed over on the way, and the frame's
// type, sender and payload length.
#[derive(Clone, Copy)]
pub struct FoundRow {
    pub at: u64,
    pub next: u64,
    pub needed: u64,
    pub junk: u64,
    pub bad: u64,
    pub short: u64,
    pub kind: u16,
    pub sender: u16,
    pub length: u8,
}

// What came next.
#[derive(Clone, Copy, Debug, PartialEq, Eq)]
pub enum Found {
    Frame = 0,
    End = 1,
    Needs = 2,
}

// Of an answer in numbers.
fn found_of(r: Reached) -> Found
    ensures { (n : Next) → r ≡ reached_in n → found_number result ≡ number_in n }
{
    match r.number {
        0 => Found::Frame,
        1 => Found::End,
        _ => Found::Needs,
    }
}

// The row of the same: where there is no frame its numbers are 0, and so are the bytes needed where none are.
fn row_of(r: Reached) -> FoundRow
    ensures { (n : Next) → r ≡ reached_in n → result ≡ found_in n }
{
    let f = r.frame;
    let c = r.cursor;
    let at = if r.number == 0 { f.at } else { c.at };
    FoundRow {
        at: at as u64,
        next: c.at as u64,
        needed: r.needed as u64,
        junk: c.junk as u64,
        bad: c.bad as u64,
        short: c.short as u64,
        kind: f.kind,
        sender: f.sender,
        length: f.length,
    }
}

fn put_found(buf: &mut [u8], f: FoundRow)
    ensures { buf.new ≡ row_stored found_fields (found_values f) buf.old 0 }
{
    f.at.store(buf, 0);
    f.next.store(buf, 8);
    f.needed.store(buf, 16);
    f.junk.store(buf, 24);
    f.bad.store(buf, 32);
    f.short.store(buf, 40);
    f.kind.store(buf, 48);
    f.sender.store(buf, 50);
    f.length.store(buf, 52);
}

// The next frame from a position on, in closed reading or, where opened says so, in open, and its row at the start of found; 32 where that has no
// room.
#[tactic(auto, unfolding(crate::specs::Found::next_from))]
pub fn next_row(capture: &[u8], at: usize, opened: bool, found: &mut [u8]) -> Result<Found, Refusal>
    ensures value { as_number found_number (answer_of result) ≡ next_answer capture.now at opened (length found.old) }
    ensures found_after { found.new ≡ next_stored capture.now at opened found.old }
{
    if found.len() < FOUND_SIZE {
        return Err(Refusal::NoRoom);
    }
    let start = Cursor {
        at,
        opened,
        framed: 0,
        junk: 0,
        bad: 0,
        short: 0,
    };
    let reached = start.reach(capture);
    put_found(found, row_of(reached));
    Ok(found_of(reached))
}
