// Where a type stands among the messages: a count for each type is kept at its place.
ghost use Rattle.std.specs.Prelude.{◌≡◌};
ghost use Rattle.payloads.specs.Places.{placed_for};

use crate::kind::message_type;

// How many messages there are.
pub const MESSAGES: usize = 24;

// None for a type without a reading.
pub fn place_of(kind: u16) -> Option<usize>
    ensures { result ≡ placed_for kind }
{
    match message_type(kind) {
        Ok(message) => Some(message as usize),
        Err(_) => None,
    }
}
