// The index goes on, and the list is filled.
ghost use Rattle.std.specs.Prelude.{◌≡◌, ◌+◌, ◌≤◌, length};
ghost use Rattle.refusals.specs.Refusals.{zero_or};
ghost use Rattle.refusals.specs.Numbers.{answer_of};
ghost use Rattle.index.specs.Index.{frames_from, entries_from, extended, written, extend_in, index_after, entries_after};

use crate::entry::Entry;
use crate::index::Index;
use crate::reading::after;
use crate::room::roomy;
use frames::Next;
use refusals::Refusal;

// An entry for each frame from where the index stands to where open reading stops.
fn fill(index: &mut Index, capture: &[u8], entries: &mut [Entry])
    requires inside { index.old.reached ≤ length capture.now }
    requires room { index.old.held + length (frames_from capture.now index.old.reached) ≤ length entries.old }
    ensures index_after { index.new ≡ extended capture.now index.old }
    ensures entries_after { entries.new ≡ written index.old.held (entries_from capture.now index.old.reached) entries.old }
{
    loop {
        match after(capture, index.reached) {
            Next::Frame(f, c) => {
                entries[index.held] = Entry::of(f);
                index.held += 1;
                index.reached = c.at;
                index.tally(f.kind);
            }
            Next::End(c) | Next::Needs(_, c) => {
                index.reached = c.at;
                return;
            }
        }
    }
}

// The index goes on from where open reading had come to. 52 where the capture is shorter than that, then 51 where the list is shorter than the
// frames it has to hold; the index and the list then stay as they were.
pub fn extend(index: &mut Index, capture: &[u8], entries: &mut [Entry]) -> Result<(), Refusal>
    ensures value { zero_or (answer_of result) ≡ zero_or (extend_in index.old capture.now (length entries.old)) }
    ensures index_after { index.new ≡ index_after index.old capture.now (length entries.old) }
    ensures entries_after { entries.new ≡ entries_after index.old capture.now entries.old }
{
    if capture.len() < index.reached {
        return Err(Refusal::CaptureTooShort);
    }
    if !roomy(entries.len(), index.held, capture, index.reached) {
        return Err(Refusal::ListTooShort);
    }
    fill(index, capture, entries);
    Ok(())
}
