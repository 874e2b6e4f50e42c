// The calls of an index in lent bytes: 32 where these are too few, then as `index` answers.
ghost use Rattle.std.specs.Prelude.{◌≡◌, length};
ghost use Rattle.refusals.specs.Refusals.{zero_or};
ghost use Rattle.refusals.specs.Numbers.{answer_of};
ghost use Rattle.index.specs.Index.{sought_answer};
ghost use Rattle.lent_index.specs.Bytes.{make_in, kept_in, extend_in_bytes, list_after, first_in_bytes, count_in_bytes};
ghost use Rattle.lent_index.specs.Inner.{lent};

use crate::keeping::{INDEX_SIZE, index_in, put_index};
use index::{Entry, Found, Index};
use refusals::Refusal;

fn lent(bytes: &[u8]) -> Result<Index, Refusal>
    ensures { answer_of result ≡ lent bytes.now }
{
    if bytes.len() < INDEX_SIZE {
        return Err(Refusal::NoRoom);
    }
    Ok(index_in(bytes))
}

// An empty index; 32 where the bytes are too few.
pub fn make(bytes: &mut [u8]) -> Result<(), Refusal>
    ensures value { zero_or (answer_of result) ≡ zero_or (make_in bytes.old) }
    ensures bytes_after { bytes.new ≡ kept_in (make_in bytes.old) bytes.old }
{
    if bytes.len() < INDEX_SIZE {
        return Err(Refusal::NoRoom);
    }
    put_index(bytes, &index::empty());
    Ok(())
}

// The index goes on and is kept; 32 where the bytes are too few, then 52 and 51. A refusal leaves the bytes and the list as they were.
pub fn extend(bytes: &mut [u8], capture: &[u8], entries: &mut [Entry]) -> Result<(), Refusal>
    ensures value { zero_or (answer_of result) ≡ zero_or (extend_in_bytes bytes.old capture.now (length entries.old)) }
    ensures bytes_after { bytes.new ≡ kept_in (extend_in_bytes bytes.old capture.now (length entries.old)) bytes.old }
    ensures entries_after { entries.new ≡ list_after bytes.old capture.now entries.old }
{
    let mut index = lent(bytes)?;
    index::extend(&mut index, capture, entries)?;
    put_index(bytes, &index);
    Ok(())
}

// The first frame of a type and sender at or after an offset; 32 where the bytes are too few, then 51.
pub fn first(
    bytes: &[u8],
    entries: &[Entry],
    kind: u16,
    sender: u16,
    offset: u64,
) -> Result<Option<Found>, Refusal>
    ensures { sought_answer result ≡ first_in_bytes bytes.now entries.now kind sender offset }
{
    let index = lent(bytes)?;
    index::first(&index, entries, kind, sender, offset)
}

// How many frames of a type there are; 32 where the bytes are too few, then 21 for a type without a reading.
pub fn count(bytes: &[u8], kind: u16) -> Result<u64, Refusal>
    ensures { answer_of result ≡ count_in_bytes bytes.now kind }
{
    let index = lent(bytes)?;
    index::count(&index, kind)
}
