// Frames written into a lent buffer.
ghost use Rattle.std.specs.Prelude.{◌≡◌, length};
ghost use Rattle.refusals.specs.Refusals.{zero_or};
ghost use Rattle.refusals.specs.Numbers.{answer_of};
ghost use Rattle.frame_writer.specs.Writer.{written_answer, planned, size_left, sealed, with_frame};
ghost use Rattle.frame_writer.specs.Inner.{headed};

use refusals::Refusal;
use senders::Writer;
use wire::InBytes;

// What was written as C and Rust are told it: 0 with the number of bytes through size, or a refusal's number, whichever it is.
pub fn hand_on(written: Result<usize, u8>, size: &mut u64) -> u8
    ensures value { result ≡ zero_or (written_answer written) }
    ensures size_after { size.new ≡ size_left (written_answer written) size.old }
{
    match written {
        Ok(n) => {
            *size = n as u64;
            0
        }
        Err(number) => number,
    }
}

// What writing n payload bytes into a buffer of some length answers: 31 over 255, then 32 where the frame does not fit.
pub fn plan(n: usize, room: usize) -> Result<usize, Refusal>
    ensures { answer_of result ≡ planned n room }
{
    if 255 < n {
        return Err(Refusal::TooLong);
    }
    if room < n + 8 {
        return Err(Refusal::NoRoom);
    }
    Ok(n + 8)
}

// The six bytes before a payload of n bytes.
fn put_head(buf: &mut [u8], kind: u16, sender: u16, n: u8)
    ensures { buf.new ≡ headed kind sender n buf.old }
{
    0x55u8.store(buf, 0);
    kind.store(buf, 1);
    sender.store(buf, 3);
    n.store(buf, 5);
}

// Makes a frame of the n payload bytes that stand at buf[6..]; where the frame does not fit, nothing is changed.
pub fn seal(buf: &mut [u8], kind: u16, writer: Writer, n: usize)
    ensures { buf.new ≡ sealed kind writer n buf.old }
{
    if let Ok(_) = plan(n, buf.len()) {
        put_head(buf, kind, senders::sender_number(kind, writer), n as u8);
        let end = n + 6;
        let sum = crc::crc(0, &buf[1..end]);
        sum.store(buf, end);
    }
}

// A frame of any type with any payload.
pub fn write_frame(
    buf: &mut [u8],
    kind: u16,
    writer: Writer,
    payload: &[u8],
) -> Result<usize, Refusal>
    ensures result_value { answer_of result ≡ planned (length payload.now) (length buf.old) }
    ensures buf_after { buf.new ≡ with_frame kind writer payload.now buf.old }
{
    let n = payload.len();
    let written = plan(n, buf.len())?;
    wire::store_bytes(buf, 6, payload);
    seal(buf, kind, writer, n);
    Ok(written)
}
