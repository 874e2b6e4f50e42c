// The lines of a listing, one after the other in a lent buffer.
ghost use Rattle.std.specs.Prelude.{◌≡◌, ◌^◌, ◌≤◌, ◌<◌, leb, length, Ok};
ghost use Rattle.std.proofs.lemmas.List.Edits.{sets};
ghost use Rattle.refusals.specs.Numbers.{answer_of};
ghost use Rattle.epochs.specs.Collator.{happened_of};
ghost use Rattle.lines.specs.Lines.{epoch_part};
ghost use Rattle.listing.specs.Listing.{text_of, most_listed, list_answer, with_listing};

use epochs::{Collator, Report};
use frames::{Cursor, Next};
use refusals::Refusal;

// The epoch that a frame ended, if it did: a frame that is refused has no line of its own.
fn ended(fed: Result<Option<Report>, Refusal>) -> Option<Report>
    ensures { epoch_part (happened_of (Ok result)) ≡ epoch_part (happened_of fed) }
{
    match fed {
        Ok(epoch) => epoch,
        Err(_) => None,
    }
}

// The text of a capture, in a buffer that may be too short for it; and its length. A sender has its seat before its frame is fed.
// No `while let`: the end hands out the counts of the last line.
fn put_text(s: &[u8], buf: &mut [u8]) -> usize
    requires { length (text_of s.now) < 2 ^ 64 }
    ensures value { result ≡ length (text_of s.now) }
    ensures buf_after { length (text_of s.now) ≤ length buf.old → buf.new ≡ sets buf.old 0 (text_of s.now) }
{
    let mut at = 0;
    let mut collator = Collator::empty();
    let mut cursor = Cursor::closed();
    loop {
        match cursor.next(s) {
            Next::Frame(frame, rest) => {
                let payload = frames::payload(s, frame);
                let answer = refusals::code(payloads::answer(frame.kind, payload));
                at = lines::put_frame(buf, at, frame, answer);
                enlisting::enlist(&mut collator, frame.kind, frame.sender);
                let fed = collator.feed(frame.kind, frame.sender, payload);
                at = lines::put_epoch(buf, at, ended(fed));
                cursor = rest;
            }
            Next::End(last) => {
                return lines::put_totals(buf, at, s.len(), last.counts());
            }
            Next::Needs(_, _) => {
                return at;
            }
        }
    }
}

// Whether the text has room. A buffer of eight bytes for each of the capture's and 32 more has it always.
fn fits(s: &[u8], room: usize) -> bool
    requires { length s.now ≤ most_listed }
    ensures { result ≡ leb (length (text_of s.now)) room }
{
    if s.len() * 8 + 32 <= room {
        return true;
    }
    let mut nowhere = [0u8; 1];
    put_text(s, &mut nowhere) <= room
}

// The listing of a capture: 11 for one over 65536 bytes, then 32.
pub fn list(s: &[u8], buf: &mut [u8]) -> Result<usize, Refusal>
    ensures result_value { answer_of result ≡ list_answer s.now (length buf.old) }
    ensures buf_after { buf.new ≡ with_listing s.now buf.old }
{
    if 65536 < s.len() {
        return Err(Refusal::CaptureTooLong);
    }
    if fits(s, buf.len()) {
        return Ok(put_text(s, buf));
    }
    Err(Refusal::NoRoom)
}
