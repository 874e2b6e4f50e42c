// An index beside a capture, in the caller's bytes and list.
ghost use Rattle.std.specs.Prelude.{◌≡◌, length};
ghost use Rattle.refusals.specs.Refusals.{as_number, leaves, zero_or};
ghost use Rattle.lent_index.specs.Bytes.{make_in, kept_in, extend_in_bytes, list_after, first_in_bytes, hit_number, place_or, count_in_bytes, count_or};

use index::Entry;

// An empty index; 32 where it has no room.
pub fn sbp_index(index: &mut [u8]) -> u8
    ensures value { result ≡ zero_or (make_in index.old) }
    ensures index_after { index.new ≡ kept_in (make_in index.old) index.old }
{
    refusals::code(lent_index::make(index))
}

// 32 where the index has no room, 52 where the capture is shorter than the position reached, 51 where the list is shorter than the frames it has
// to hold.
pub fn sbp_extend(index: &mut [u8], capture: &[u8], entries: &mut [Entry]) -> u8
    ensures { (result ≡ zero_or (extend_in_bytes index.old capture.now (length entries.old))) × (index.new ≡ kept_in (extend_in_bytes index.old capture.now (length entries.old)) index.old) × (entries.new ≡ list_after index.old capture.now entries.old) }
{
    refusals::code(lent_index::extend(index, capture, entries))
}

// 0 and the place in the list of the first frame of a type and sender at or after an offset, 1 for none; 32 where the index has no room, 51 where
// the list is shorter than the frames held.
pub fn sbp_first(
    index: &[u8],
    entries: &[Entry],
    kind: u16,
    sender: u16,
    offset: u64,
    place: &mut u64,
) -> u8
    ensures { (result ≡ as_number hit_number (first_in_bytes index.now entries.now kind sender offset)) × (place.new ≡ leaves place_or (first_in_bytes index.now entries.now kind sender offset) place.old) }
{
    match lent_index::first(index, entries, kind, sender, offset) {
        Ok(Some(found)) => {
            *place = found.place as u64;
            0
        }
        Ok(None) => 1,
        Err(e) => e.number(),
    }
}

// 0 and the kept total through count; 32 where the index has no room, 21 for a type without a reading.
pub fn sbp_count(index: &[u8], kind: u16, count: &mut u64) -> u8
    ensures value { result ≡ zero_or (count_in_bytes index.now kind) }
    ensures count_after { count.new ≡ count_or (count_in_bytes index.now kind) count.old }
{
    match lent_index::count(index, kind) {
        Ok(n) => {
            *count = n;
            0
        }
        Err(e) => e.number(),
    }
}
