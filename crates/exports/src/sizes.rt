// What was written, as C has it.
ghost use Rattle.std.specs.Prelude.{◌≡◌};
ghost use Rattle.refusals.specs.Refusals.{zero_or};
ghost use Rattle.refusals.specs.Numbers.{answer_of};
ghost use Rattle.frame_writer.specs.Writer.{written_answer, size_left};

use refusals::Refusal;

// By the refusal's number.
fn numbered(written: Result<usize, Refusal>) -> Result<usize, u8>
    ensures { written_answer result ≡ answer_of written }
{
    match written {
        Ok(n) => Ok(n),
        Err(e) => Err(e.number()),
    }
}

// 0 with the number of bytes through size, or the refusal's number.
pub(crate) fn size_or_code(written: Result<usize, Refusal>, size: &mut u64) -> u8
    ensures value { result ≡ zero_or (answer_of written) }
    ensures size_after { size.new ≡ size_left (answer_of written) size.old }
{
    frame_writer::hand_on(numbered(written), size)
}
