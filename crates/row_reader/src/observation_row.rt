// The row of one observation.
ghost use Rattle.std.specs.Prelude.{◌+◌, ◌*◌, ◌≤◌, ◌≡◌, length};
ghost use Rattle.refusals.specs.Refusals.{zero_or};
ghost use Rattle.refusals.specs.Numbers.{answer_of};
ghost use Rattle.formats.specs.Digits.{formats_by, size_of, numbers_at};
ghost use Rattle.row_reader.specs.ReadRow.{beginning, read_one, row_after_one};

use formats::{Shape, count, read_run, size};
use refusals::Refusal;

// What is repeated after the head, for the index'th time.
fn fill_one(row: &mut [u64], s: &[u8], shape: Shape, index: usize)
    requires each_in_bounds { size_of (formats_by shape.head) + index * size_of (formats_by shape.each) ≤ length s.now }
    requires each_in_bounds_2 { length (formats_by shape.each) ≤ length row.old }
    ensures { row.new ≡ beginning (numbers_at (formats_by shape.each) s.now (size_of (formats_by shape.head) + index * size_of (formats_by shape.each))) row.old }
{
    let at = size(shape.head) + index * size(shape.each);
    read_run(row, &s[at..], shape.each);
}

pub fn read_observation_row(
    kind: u16,
    payload: &[u8],
    index: usize,
    row: &mut [u64],
) -> Result<(), Refusal>
    ensures value { zero_or (answer_of result) ≡ zero_or (read_one kind payload.now index (length row.old)) }
    ensures row_after { row.new ≡ row_after_one kind payload.now index row.old }
{
    observation::read_observation_of(kind, payload, index)?;
    // an observation was read, so that the type is OBS
    let shape = payloads::shape_of(0x0049);
    if row.len() < count(shape.each) {
        return Err(Refusal::NoRoom);
    }
    fill_one(row, payload, shape, index);
    Ok(())
}
