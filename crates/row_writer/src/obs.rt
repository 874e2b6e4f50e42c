// OBS written from numbers: three of its header, then eight for each observation.
ghost use Rattle.std.specs.Prelude.{◌≡◌, true, ◌+◌, ◌*◌, ◌≤◌, length};
ghost use Rattle.refusals.specs.Refusals.{ordered};
ghost use Rattle.refusals.specs.Numbers.{answer_of};
ghost use Rattle.layouts.specs.Inner.{rows_stored};
ghost use Rattle.formats.specs.Wide.{narrow_rows, fits_rows};
ghost use Rattle.observation.specs.Edition.{observation};
ghost use Rattle.row_writer.specs.WriteObsRow.{rows_in, write_obs_row, obs_row_written};
ghost use Rattle.row_writer.specs.Inner.{testing_obs_row};

use refusals::Refusal;
use senders::Writer;

// The first edition's fields as digits (formats/specs/Digits.antt), how many they are, and how many bytes they take.
const HEAD: u64 = 0x124;

const EACH: u64 = 0x112211c4;

const HEAD_NUMBERS: usize = 3;

const EACH_NUMBERS: usize = 8;

const HEAD_SIZE: usize = 7;

const EACH_SIZE: usize = 16;

const MOST: usize = 15;

// Whether each field of k observations can hold its number.
fn rows_fit(rows: &[u64], k: usize) -> bool
    requires { k * 8 ≤ length rows.now }
    ensures { result ≡ fits_rows observation.fields k rows.now 0 }
{
    for i in 0..k {
        let from = i * EACH_NUMBERS;
        if !formats::run_fits(&rows[from..], EACH) {
            return false;
        }
    }
    true
}

// How many observations the numbers are: else 21, 22, 23, 31 for too many.
fn count_of(kind: u16, head: &[u64], rows: &[u64]) -> Result<usize, Refusal>
    ensures { answer_of result ≡ ordered (testing_obs_row kind head.now rows.now) (rows_in (length rows.now)) }
{
    if !observation::is_obs(kind) {
        return Err(Refusal::UnknownType);
    }
    if head.len() != HEAD_NUMBERS {
        return Err(Refusal::WrongLength);
    }
    if rows.len() % EACH_NUMBERS != 0 {
        return Err(Refusal::WrongLength);
    }
    let k = rows.len() / EACH_NUMBERS;
    if !formats::run_fits(head, HEAD) {
        return Err(Refusal::OutOfRange);
    }
    if !rows_fit(rows, k) {
        return Err(Refusal::OutOfRange);
    }
    if MOST < k {
        return Err(Refusal::TooLong);
    }
    Ok(k)
}

// Stores k observations one after the other behind the header.
fn pack_rows(bytes: &mut [u8], rows: &[u64], k: usize)
    requires k_in_bounds { k * 8 ≤ length rows.now }
    requires k_in_bounds_2 { 7 + k * 16 ≤ length bytes.old }
    requires rows_value { fits_rows observation.fields k rows.now 0 ≡ true }
    ensures { bytes.new ≡ rows_stored observation.fields (narrow_rows observation.fields k rows.now 0) bytes.old 7 }
{
    for i in 0..k {
        let from = i * EACH_NUMBERS;
        let start = HEAD_SIZE + i * EACH_SIZE;
        formats::store_run(&mut bytes[start..], &rows[from..], EACH);
    }
}

// 21, 22, 23, 31, 32, or the frame's size. The frame is written once nothing is left to refuse.
pub fn write_obs_row(
    out: &mut [u8],
    kind: u16,
    writer: Writer,
    head: &[u64],
    rows: &[u64],
) -> Result<usize, Refusal>
    ensures result_value { answer_of result ≡ write_obs_row kind head.now rows.now (length out.old) }
    ensures out_after { out.new ≡ obs_row_written kind writer head.now rows.now out.old }
{
    let k = count_of(kind, head, rows)?;
    let n = HEAD_SIZE + k * EACH_SIZE;
    let mut bytes = [0u8; 255];
    formats::store_run(&mut bytes, head, HEAD);
    pack_rows(&mut bytes, rows, k);
    frame_writer::write_frame(out, kind, writer, &bytes[..n])
}
