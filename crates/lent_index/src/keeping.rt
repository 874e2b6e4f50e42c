// An index read from lent bytes and kept there.
ghost use Rattle.std.specs.Prelude.{◌≡◌};
ghost use Rattle.wire.specs.Tabulated.{tabulated};
ghost use Rattle.payloads.specs.Places.{message_count};
ghost use Rattle.lent_index.specs.Bytes.{count_at, counts_stored, index_from_bytes, index_stored};

use index::Index;
use payloads::MESSAGES;
use wire::InBytes;

// Where the counts begin, and how many bytes a count and an index take: as specs/ has it, and link/include/sbp.h.
const COUNTS_AT: usize = 16;

const COUNT_SIZE: usize = 8;

pub(crate) const INDEX_SIZE: usize = COUNTS_AT + MESSAGES * COUNT_SIZE;

fn counts_in(s: &[u8]) -> [u64; MESSAGES]
    ensures { result ≡ tabulated (count_at s.now) message_count }
{
    let mut counts = [0; MESSAGES];
    for i in 0..MESSAGES {
        counts[i] = u64::read(s, COUNTS_AT + i * COUNT_SIZE);
    }
    counts
}

// A byte past the end reads 0.
pub fn index_in(s: &[u8]) -> Index
    ensures { result ≡ index_from_bytes s.now }
{
    Index {
        reached: u64::read(s, 0) as usize,
        held: u64::read(s, 8) as usize,
        counts: counts_in(s),
    }
}

#[inline(always)]
fn put_counts(s: &mut [u8], counts: &[u64; MESSAGES])
    ensures { s.new ≡ counts_stored counts.now s.old }
{
    for i in 0..MESSAGES {
        counts[i].store(s, COUNTS_AT + i * COUNT_SIZE);
    }
}

// Into its callers: an empty index is then zeros that are stored, and is built nowhere before.
#[inline(always)]
pub(crate) fn put_index(s: &mut [u8], index: &Index)
    ensures { s.new ≡ index_stored index.now s.old }
{
    (index.reached as u64).store(s, 0);
    (index.held as u64).store(s, 8);
    put_counts(s, &index.counts);
}
