// Frames written into a lent buffer.
ghost use Rattle.std.specs.Prelude.{◌≡◌, length};
ghost use Rattle.refusals.specs.Refusals.{zero_or};
ghost use Rattle.frame_writer.specs.Faithful.{write_answer, written_as};
ghost use Rattle.frame_writer.specs.Writer.{planned, with_frame, size_left};
ghost use Rattle.row_writer.specs.WriteObsRow.{write_obs_row, obs_row_written};
ghost use Rattle.row_writer.specs.WriteRow.{write_row, row_written};
ghost use Rattle.logs.specs.Log.{log, logged};
ghost use Rattle.senders.specs.Senders.{writer_from};

use crate::sizes::size_or_code;

// Every message without a tail, from one number for each field: 21 for a type that it does not write, 22 for another number of fields, 23 for a
// number that its field cannot hold or that is outside its range, 31, 32.
pub fn sbp_write(
    out: &mut [u8],
    kind: u16,
    own: u16,
    sender: u32,
    row: &[u64],
    size: &mut u64,
) -> u8
    ensures value { result ≡ zero_or (write_row kind row.now (length out.old)) }
    ensures out_after { out.new ≡ row_written kind (writer_from own sender) row.now out.old }
    ensures size_after { size.new ≡ size_left (write_row kind row.now (length out.old)) size.old }
{
    let written = row_writer::write_row(out, kind, senders::writer_from(own, sender), row);
    size_or_code(written, size)
}

// An OBS, from its header's three numbers and eight for each observation: 21, 22, 23, 31, 32.
pub fn sbp_write_obs(
    out: &mut [u8],
    kind: u16,
    own: u16,
    sender: u32,
    head: &[u64],
    rows: &[u64],
    size: &mut u64,
) -> u8
    ensures value { result ≡ zero_or (write_obs_row kind head.now rows.now (length out.old)) }
    ensures out_after { out.new ≡ obs_row_written kind (writer_from own sender) head.now rows.now out.old }
    ensures size_after { size.new ≡ size_left (write_obs_row kind head.now rows.now (length out.old)) size.old }
{
    let written = row_writer::write_obs_row(
        out,
        kind,
        senders::writer_from(own, sender),
        head,
        rows,
    );
    size_or_code(written, size)
}

// A LOG: 23 for a zero in the text, 31 for a text and zeros over 254 bytes, then 32.
pub fn sbp_write_log(
    out: &mut [u8],
    own: u16,
    sender: u32,
    level: u8,
    text: &[u8],
    padding: usize,
    size: &mut u64,
) -> u8
    ensures value { result ≡ zero_or (write_answer log (logged level text.now padding) (length out.old)) }
    ensures out_after { out.new ≡ written_as log (writer_from own sender) (logged level text.now padding) out.old }
    ensures size_after { size.new ≡ size_left (write_answer log (logged level text.now padding) (length out.old)) size.old }
{
    let written = logs::write_log(out, senders::writer_from(own, sender), level, text, padding);
    size_or_code(written, size)
}

// A frame of any type with any payload: 31 over 255 bytes, then 32.
pub fn sbp_write_frame(
    out: &mut [u8],
    kind: u16,
    own: u16,
    sender: u32,
    payload: &[u8],
    size: &mut u64,
) -> u8
    ensures value { result ≡ zero_or (planned (length payload.now) (length out.old)) }
    ensures out_after { out.new ≡ with_frame kind (writer_from own sender) payload.now out.old }
    ensures size_after { size.new ≡ size_left (planned (length payload.now) (length out.old)) size.old }
{
    let written = frame_writer::write_frame(out, kind, senders::writer_from(own, sender), payload);
    size_or_code(written, size)
}
