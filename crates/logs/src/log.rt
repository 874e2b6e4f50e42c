// LOG, 0x0401: a level, a text, and zeros.
ghost use Rattle.std.specs.Prelude.{◌≡◌, length, drop};
ghost use Rattle.padded.specs.Padded.{from_zero};
ghost use Rattle.layouts.specs.Inner.{body_stored};
ghost use Rattle.layouts.specs.Description.{inside};
ghost use Rattle.refusals.specs.Numbers.{answer_of};
ghost use Rattle.frame_writer.specs.Faithful.{write_answer, written_as};
ghost use Rattle.logs.specs.Log.{log, logged, shown, read_log, text_in, log_length, log_padded};

use refusals::Refusal;
use senders::Writer;
use wire::InBytes;

// The text stays in the payload: `log_text` gives it as that part.
#[derive(Clone, Copy)]
pub struct Log {
    pub level: u8,
    pub length: usize,
    pub padding: usize,
}

pub fn is_log_length(n: usize) -> bool
    ensures { result ≡ log_length n }
{
    1 <= n && n <= 255
}

// What stands after the level, which takes no part in the search for the zero.
fn after_level(s: &[u8]) -> &[u8]
    ensures { result.now ≡ drop 1 s.now }
{
    if s.is_empty() {
        return s;
    }
    &s[1..]
}

// The text, which ends at the first zero after the level, and what stands after it.
fn text_and_padding(s: &[u8]) -> (&[u8], &[u8])
    ensures text { result.0.now ≡ text_in s.now }
    ensures padding { result.1.now ≡ from_zero (drop 1 s.now) }
{
    let rest = after_level(s);
    rest.split_at(padded::text_length(rest))
}

// The text of a LOG payload.
pub fn log_text(s: &[u8]) -> &[u8]
    ensures { result.now ≡ text_in s.now }
{
    text_and_padding(s).0
}

// Whether nothing but zeros stands after the text.
pub fn log_padded(s: &[u8]) -> bool
    ensures { result ≡ log_padded s.now }
{
    padded::all_zero(text_and_padding(s).1)
}

pub fn take_log(s: &[u8]) -> Log
    ensures { result ≡ shown (inside log s.now) }
{
    let (text, padding) = text_and_padding(s);
    Log {
        level: u8::read(s, 0),
        length: text.len(),
        padding: padding.len(),
    }
}

#[tactic(auto, using(crate::proofs::Logs::log_22, crate::proofs::Logs::log_23, crate::proofs::Logs::log_given))]
pub fn read_log(s: &[u8]) -> Result<Log, Refusal>
    ensures { answer_of result ≡ read_log s.now }
{
    if !is_log_length(s.len()) {
        return Err(Refusal::WrongLength);
    }
    if log_padded(s) {
        return Ok(take_log(s));
    }
    Err(Refusal::OutOfRange)
}

// Stores a level, a text and zeros at buf[6..], one after the other.
fn put_log(buf: &mut [u8], level: u8, text: &[u8], padding: usize)
    ensures { buf.new ≡ body_stored log.layout (log.row (logged level text.now padding)) buf.old 6 }
{
    level.store(buf, 6);
    wire::store_bytes(buf, 7, text);
    padded::store_zeros(buf, 7 + text.len(), padding);
}

// 23 for a zero in the text, 31 for a text and zeros over 254 bytes, then 32.
pub fn write_log(
    buf: &mut [u8],
    writer: Writer,
    level: u8,
    text: &[u8],
    padding: usize,
) -> Result<usize, Refusal>
    ensures result_value { answer_of result ≡ write_answer log (logged level text.now padding) (length buf.old) }
    ensures buf_after { buf.new ≡ written_as log writer (logged level text.now padding) buf.old }
{
    if !padded::no_zero(text) {
        return Err(Refusal::OutOfRange);
    }
    if !wire::room(254, text.len(), padding) {
        return Err(Refusal::TooLong);
    }
    let n = 1 + text.len() + padding;
    let written = frame_writer::plan(n, buf.len())?;
    put_log(buf, level, text, padding);
    frame_writer::seal(buf, 0x0401, writer, n);
    Ok(written)
}
