// A frame written from one number for each field: every message without a tail.
ghost use Rattle.std.specs.Prelude.{◌≡◌, ◌+◌, ◌≤◌, length};
ghost use Rattle.refusals.specs.Refusals.{ordered};
ghost use Rattle.refusals.specs.Numbers.{answer_of};
ghost use Rattle.formats.specs.Digits.{formats_by, size_of, run_fits, run_stored};
ghost use Rattle.formats.specs.Inner.{formats_in};
ghost use Rattle.payloads.specs.Payloads.{shape_for};
ghost use Rattle.row_writer.specs.WriteRow.{write_row, row_written};
ghost use Rattle.row_writer.specs.Inner.{testing_row};

use crate::send::send;
use formats::Shape;
use refusals::Refusal;
use senders::Writer;

// Whether each field can hold its number.
fn fits(row: &[u64], shape: Shape) -> bool
    requires { length (formats_by shape.head) ≤ length row.now }
    ensures { result ≡ run_fits (formats_in shape) row.now 0 }
{
    let n = formats::count(shape.head);
    formats::run_fits(row, shape.head) && formats::run_fits(&row[n..], shape.more)
}

// The shape of a type that has a reading and nothing after its fields, where each field can hold its number: else 21, 22, 23.
fn shape_for_row(kind: u16, row: &[u64]) -> Result<Shape, Refusal>
    ensures { answer_of result ≡ ordered (testing_row kind row.now) (shape_for kind) }
{
    let shape = payloads::shape_of_type(payloads::message_type(kind)?);
    if shape.each != 0 {
        return Err(Refusal::UnknownType);
    }
    if row.len() != formats::count(shape.head) + formats::count(shape.more) {
        return Err(Refusal::WrongLength);
    }
    if !fits(row, shape) {
        return Err(Refusal::OutOfRange);
    }
    Ok(shape)
}

// Stores the fields one after the other at the start of bytes.
fn pack(bytes: &mut [u8], row: &[u64], shape: Shape)
    requires head_in_bounds { length (formats_by shape.head) ≤ length row.now }
    requires more_in_bounds { size_of (formats_by shape.head) + size_of (formats_by shape.more) ≤ length bytes.old }
    ensures { bytes.new ≡ run_stored (formats_in shape) row.now 0 bytes.old 0 }
{
    let n = formats::count(shape.head);
    let at = formats::size(shape.head);
    formats::store_run(bytes, row, shape.head);
    formats::store_run(&mut bytes[at..], &row[n..], shape.more);
}

// 21, 22, 23, 31, 32, or the frame's size. The frame is written once nothing is left to refuse.
pub fn write_row(out: &mut [u8], kind: u16, writer: Writer, row: &[u64]) -> Result<usize, Refusal>
    ensures result_value { answer_of result ≡ write_row kind row.now (length out.old) }
    ensures out_after { out.new ≡ row_written kind writer row.now out.old }
{
    let shape = shape_for_row(kind, row)?;
    let n = formats::size(shape.head) + formats::size(shape.more);
    let mut bytes = [0u8; 255];
    pack(&mut bytes, row, shape);
    send(out, kind, writer, &bytes[..n])
}
