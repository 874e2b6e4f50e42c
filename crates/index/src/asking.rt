// What is asked of an index: the first frame of a type and sender at or after an offset, and how many frames of a type there are.
ghost use Rattle.std.specs.Prelude.{◌≡◌};
ghost use Rattle.std.specs.List.{position};
ghost use Rattle.refusals.specs.Numbers.{answer_of};
ghost use Rattle.index.specs.Index.{hits, sought_answer, first_in, count_in};

use crate::entry::Entry;
use crate::index::Index;
use refusals::Refusal;

// An entry and its place in the list.
#[derive(Clone, Copy)]
pub struct Found {
    pub place: usize,
    pub entry: Entry,
}

// Where the first hit stands.
fn first_hit(entries: &[Entry], kind: u16, sender: u16, offset: u64) -> Option<usize>
    ensures { result ≡ position (hits kind sender offset) entries.now }
{
    entries.iter().position(|e| e.hits(kind, sender, offset))
}

// The first hit among the entries held. 51 where the list is shorter than the frames held.
pub fn first(
    index: &Index,
    entries: &[Entry],
    kind: u16,
    sender: u16,
    offset: u64,
) -> Result<Option<Found>, Refusal>
    ensures { sought_answer result ≡ first_in index.now entries.now kind sender offset }
{
    if entries.len() < index.held {
        return Err(Refusal::ListTooShort);
    }
    let held = &entries[..index.held];
    match first_hit(held, kind, sender, offset) {
        Some(place) => Ok(Some(Found {
            place,
            entry: held[place],
        })),
        None => Ok(None),
    }
}

// The kept total of a type's frames; 21 for a type without a reading.
pub fn count(index: &Index, kind: u16) -> Result<u64, Refusal>
    ensures { answer_of result ≡ count_in index.now kind }
{
    match payloads::place_of(kind) {
        Some(place) => Ok(index.counts[place]),
        None => Err(Refusal::UnknownType),
    }
}
