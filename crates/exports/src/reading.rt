// The next frame of a capture, and the counts of a whole complete one, as rows of numbers in a lent buffer.
ghost use Rattle.std.specs.Prelude.{◌≡◌, length};
ghost use Rattle.frame_rows.specs.Found.{next_answer, next_stored};
ghost use Rattle.frame_rows.specs.Totals.{totals_answer, totals_stored};

// The next frame from a position on, in closed reading or, where opened says so, in open: 0, 1 or 2, and its row at the start of found; 32
// where that has no room.
pub fn sbp_next(capture: &[u8], at: usize, opened: bool, found: &mut [u8]) -> u8
    ensures value { result ≡ next_answer capture.now at opened (length found.old) }
    ensures found_after { found.new ≡ next_stored capture.now at opened found.old }
{
    match frame_rows::next_row(capture, at, opened, found) {
        Ok(next) => next as u8,
        Err(e) => e.number(),
    }
}

// 0 and the row at the start of counts; 32 where that has no room.
pub fn sbp_totals(capture: &[u8], counts: &mut [u8]) -> u8
    ensures value { result ≡ totals_answer capture.now (length counts.old) }
    ensures counts_after { counts.new ≡ totals_stored capture.now counts.old }
{
    refusals::code(frame_rows::totals_row(capture, counts))
}
