// A payload that its type takes, sent as a frame.
ghost use Rattle.std.specs.Prelude.{◌≡◌, length};
ghost use Rattle.refusals.specs.Refusals.{leaves};
ghost use Rattle.refusals.specs.Numbers.{answer_of};
ghost use Rattle.frame_writer.specs.Writer.{starting_with, framed_by};
ghost use Rattle.row_writer.specs.Inner.{sent};

use refusals::Refusal;
use senders::Writer;

// 23 for a payload that its type does not take, then as every frame.
pub(crate) fn send(
    out: &mut [u8],
    kind: u16,
    writer: Writer,
    payload: &[u8],
) -> Result<usize, Refusal>
    ensures result_value { answer_of result ≡ sent kind payload.now (length out.old) }
    ensures out_after { out.new ≡ leaves (starting_with (framed_by kind writer payload.now)) (sent kind payload.now (length out.old)) out.old }
{
    match payloads::answer(kind, payload) {
        Ok(_) => frame_writer::write_frame(out, kind, writer, payload),
        Err(_) => Err(Refusal::OutOfRange),
    }
}
