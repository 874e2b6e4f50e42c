// A payload's fields, or one observation's, as numbers of 64 bits in a lent row.
ghost use Rattle.std.specs.Prelude.{◌≡◌, length};
ghost use Rattle.refusals.specs.Refusals.{zero_or};
ghost use Rattle.row_reader.specs.ReadRow.{read_row, row_after, read_one, row_after_one};

// 0 and one number for each field at the start of row; 21, 22, 23, then 32 where that has no room.
pub fn sbp_read(kind: u16, payload: &[u8], row: &mut [u64]) -> u8
    ensures value { result ≡ zero_or (read_row kind payload.now (length row.old)) }
    ensures row_after { row.new ≡ row_after kind payload.now row.old }
{
    refusals::code(row_reader::read_row(kind, payload, row))
}

// 0 and eight numbers at the start of row; 21 for a type that is not OBS, 22, 25, then 32.
pub fn sbp_observation(kind: u16, payload: &[u8], index: usize, row: &mut [u64]) -> u8
    ensures value { result ≡ zero_or (read_one kind payload.now index (length row.old)) }
    ensures row_after { row.new ≡ row_after_one kind payload.now index row.old }
{
    refusals::code(row_reader::read_observation_row(kind, payload, index, row))
}
