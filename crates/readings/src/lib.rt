// One reading of any type and payload: the record under its message's name, or the refusal. What that is stands in payloads' specs/Payloads.antt.
#![tactic(auto)]

ghost use Rattle.std.specs.Prelude.{◌≡◌};
ghost use Rattle.refusals.specs.Numbers.{answer_of};
ghost use Rattle.payloads.specs.Payloads.{read_for};

mod record;

use payloads::{Message, message_type};
use refusals::Refusal;

// 21, then as the message's own reader.
pub fn read(kind: u16, payload: &[u8]) -> Result<Message, Refusal>
    ensures { answer_of result ≡ read_for kind payload.now }
{
    record::record_of(message_type(kind)?, payload)
}
