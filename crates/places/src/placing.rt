// A sender's place among the bytes of a collator.
ghost use Rattle.std.specs.Prelude.{◌≡◌, ◌%◌};
ghost use Rattle.places.specs.State.{slot_at, place_in, place_stored};

use crate::sizes::{COME_AT, N_AT, OPENED_AT, PLACES_AT, SLOT_SIZE, TOTAL_AT, TOW_AT, WN_AT};
use epochs::Place;
use groups::Part;
use packets::Key;
use wire::InBytes;

// Where the bytes of place i % 8 begin. With the remainder every number is a place's, and the compiler knows that its bytes lie within a state.
fn slot_at(i: usize) -> usize
    ensures { result ≡ slot_at (i % 8) }
{
    PLACES_AT + i % 8 * SLOT_SIZE
}

// Place i % 8 of the eight: idle where its first byte is 0.
pub fn place_in(s: &[u8], i: usize) -> Place
    ensures { result ≡ place_in s.now (i % 8) }
{
    let at = slot_at(i);
    if u8::read(s, at + OPENED_AT) == 0 {
        return Place { group: None };
    }
    let key = Key {
        tow: u32::read(s, at + TOW_AT),
        wn: u16::read(s, at + WN_AT),
        n: u8::read(s, at + N_AT),
    };
    Place {
        group: Some(Part {
            key,
            come: u16::read(s, at + COME_AT),
            total: u16::read(s, at + TOTAL_AT),
        }),
    }
}

// What an idle place has where an open one has its part.
const NOTHING: Part = Part {
    key: Key {
        tow: 0,
        wn: 0,
        n: 0,
    },
    come: 0,
    total: 0,
};

pub fn put_place(s: &mut [u8], i: usize, place: Place)
    ensures { s.new ≡ place_stored s.old (i % 8) place }
{
    let (opened, part) = match place.group {
        None => (0u8, NOTHING),
        Some(part) => (1, part),
    };
    let key = part.key;
    let at = slot_at(i);
    opened.store(s, at + OPENED_AT);
    key.tow.store(s, at + TOW_AT);
    key.wn.store(s, at + WN_AT);
    key.n.store(s, at + N_AT);
    part.come.store(s, at + COME_AT);
    part.total.store(s, at + TOTAL_AT);
}
