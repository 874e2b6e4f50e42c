// A message of one length: its type and length, its record in bytes, and by these its reader and writer, once for all.
ghost use Rattle.std.specs.Prelude.{ℕ, ◌≡◌, length};
ghost use Rattle.layouts.specs.Layout.{allowed_body};
ghost use Rattle.layouts.specs.Inner.{body_stored};
ghost use Rattle.layouts.specs.Description.{Description, Fixed, inside, read_as};
ghost use Rattle.refusals.specs.Numbers.{answer_of};
ghost use Rattle.frame_writer.specs.Faithful.{write_answer, written_as};

use crate::write::{plan, seal};
use refusals::Refusal;
use senders::Writer;

pub trait FixedMessage {
    // what a payload of it holds
    type Record: Copy;
    // its type number, and how many bytes its payload has
    const KIND: u16;

    const LENGTH: usize;

    ghost KIND: { ℕ };

    ghost LENGTH: { ℕ };

    ghost description: { Description Self.Record };

    // the record in a payload; a byte past the end reads 0
    fn take(s: &[u8]) -> Self::Record
        ensures { result ≡ inside description s.now };

    // the record's bytes where a frame has its payload
    fn put(buf: &mut [u8], r: Self::Record)
        ensures { buf.new ≡ body_stored description.layout (description.row r) buf.old 6 };

    // whether every ranged field is in its range
    fn allowed(r: Self::Record) -> bool
        ensures { result ≡ allowed_body description.layout (description.row r) };

    // its description is of this type, and of this one length
    ghost fixed: { Fixed description KIND LENGTH };
}

// A record of a payload: 22 for another length, then 23 for a field outside its range.
pub fn read_message<M: FixedMessage>(s: &[u8]) -> Result<M::Record, Refusal>
    ensures { answer_of result ≡ read_as M.description s.now }
{
    if s.len() != M::LENGTH {
        return Err(Refusal::WrongLength);
    }
    let r = M::take(s);
    if M::allowed(r) {
        return Ok(r);
    }
    Err(Refusal::OutOfRange)
}

// A frame of a record: 23 for a field outside its range, then 31 and 32 as every frame.
pub fn write_message<M: FixedMessage>(
    buf: &mut [u8],
    writer: Writer,
    r: M::Record,
) -> Result<usize, Refusal>
    ensures result_value { answer_of result ≡ write_answer M.description r (length buf.old) }
    ensures buf_after { buf.new ≡ written_as M.description writer r buf.old }
{
    if M::allowed(r) {
        let written = plan(M::LENGTH, buf.len())?;
        M::put(buf, r);
        seal(buf, M::KIND, writer, M::LENGTH);
        return Ok(written);
    }
    Err(Refusal::OutOfRange)
}
