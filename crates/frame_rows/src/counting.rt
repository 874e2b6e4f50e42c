// The counts of a whole complete capture, as a row of numbers in a lent buffer.
ghost use Rattle.std.specs.Prelude.{◌≡◌, length};
ghost use Rattle.refusals.specs.Refusals.{zero_or};
ghost use Rattle.refusals.specs.Numbers.{answer_of};
ghost use Rattle.layouts.specs.Field.{row_stored};
ghost use Rattle.frame_rows.specs.Totals.{totals_fields, totals_row, totals_answer, totals_stored};

use crate::sizes::TOTALS_SIZE;
use frames::Counts;
use refusals::Refusal;
use wire::InBytes;

fn put_counts(buf: &mut [u8], c: Counts)
    ensures { buf.new ≡ row_stored totals_fields (totals_row c) buf.old 0 }
{
    (c.framed as u64).store(buf, 0);
    (c.junk as u64).store(buf, 8);
    (c.bad as u64).store(buf, 16);
    (c.short as u64).store(buf, 24);
}

// The row at the start of counts; 32 where that has no room.
#[tactic(auto, unfolding(crate::specs::Totals::totals_for))]
pub fn totals_row(capture: &[u8], counts: &mut [u8]) -> Result<(), Refusal>
    ensures value { zero_or (answer_of result) ≡ totals_answer capture.now (length counts.old) }
    ensures counts_after { counts.new ≡ totals_stored capture.now counts.old }
{
    if counts.len() < TOTALS_SIZE {
        return Err(Refusal::NoRoom);
    }
    put_counts(counts, frames::totals(capture));
    Ok(())
}
