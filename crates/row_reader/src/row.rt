// The row of any payload.
ghost use Rattle.std.specs.Prelude.{◌≡◌, length, []};
ghost use Rattle.refusals.specs.Refusals.{zero_or};
ghost use Rattle.refusals.specs.Numbers.{answer_of};
ghost use Rattle.row_reader.specs.ReadRow.{read_row, row_after};
ghost use Rattle.row_reader.specs.Inner.{row_in};

use crate::fill::{TEXT, fill};
use formats::{Shape, count};
use refusals::Refusal;

// How many numbers a shape gives, of any payload.
fn numbers(shape: Shape) -> usize
    ensures { result ≡ length (row_in shape []) }
{
    let fields = count(shape.head) + count(shape.more);
    if shape.each == 0 {
        return fields;
    }
    if shape.each == TEXT {
        return fields + 2;
    }
    fields + 1
}

pub fn read_row(kind: u16, payload: &[u8], row: &mut [u64]) -> Result<(), Refusal>
    ensures value { zero_or (answer_of result) ≡ zero_or (read_row kind payload.now (length row.old)) }
    ensures row_after { row.new ≡ row_after kind payload.now row.old }
{
    let message = payloads::message_type(kind)?;
    payloads::accept(message, payload)?;
    let shape = payloads::shape_of_type(message);
    if row.len() < numbers(shape) {
        return Err(Refusal::NoRoom);
    }
    fill(row, payload, shape);
    Ok(())
}
