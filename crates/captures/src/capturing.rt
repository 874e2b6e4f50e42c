// A whole capture, read closed and fed frame by frame.
ghost use Rattle.std.specs.Prelude.{◌≡◌};
ghost use Rattle.captures.specs.Capture.{one_more, fed_into, going, collated_of, collated};

use epochs::Collator;
use frames::{Cursor, Next};
use refusals::Refusal;

// The end state, and how many epochs each place reported.
#[derive(Clone, Copy)]
pub struct Collated {
    pub collator: Collator,
    pub reports: [usize; 8],
}

// One more at a seat. The count wraps, so that no state traps; past the last seat nothing is counted.
fn one_more(counts: [usize; 8], seat: Option<usize>) -> [usize; 8]
    ensures { result ≡ one_more counts seat }
{
    let mut more = counts;
    if let Some(at) = seat
        && at < 8
    {
        more[at] = more[at].wrapping_add(1);
    }
    more
}

impl Collated {
    // A report counts at its sender's seat.
    fn feed(&mut self, kind: u16, sender: u16, payload: &[u8])
        ensures { going self.new ≡ fed_into (going self.old) (record { kind = kind; sender = sender; payload = payload.now }) }
    {
        let listed = self.collator.listed();
        let fed = self.collator.fed(kind, sender, payload);
        self.collator = fed.collator;
        if let Ok(Some(report)) = fed.happened {
            self.reports = one_more(self.reports, listed.seat_of(report.sender));
        }
    }
}

// Every frame of the capture in order, for an accepted roster; else 41 or 42.
pub fn collate(s: &[u8], roster: &[u16]) -> Result<Collated, Refusal>
    ensures { collated_of result ≡ collated s.now roster.now }
{
    let mut state = Collated {
        collator: Collator::made(roster)?,
        reports: [0usize; 8],
    };
    let mut cursor = Cursor::closed();
    while let Next::Frame(frame, rest) = cursor.next(s) {
        state.feed(frame.kind, frame.sender, frames::payload(s, frame));
        cursor = rest;
    }
    Ok(state)
}
