// A fresh collator in lent bytes.
ghost use Rattle.std.specs.Prelude.{◌≡◌, ◌≤◌, length};
ghost use Rattle.refusals.specs.Refusals.{zero_or};
ghost use Rattle.refusals.specs.Numbers.{answer_of};
ghost use Rattle.places.specs.State.{seats_stored, places_stored, collator_stored};
ghost use Rattle.states.specs.Feed.{made_answer, made_stored};

use crate::sizes::STATE_SIZE;
use epochs::{Collator, Place};
use places::put_place;
use places::sizes::{SEAT_SIZE, SEATS_AT};
use refusals::Refusal;
use wire::InBytes;

fn put_seats(s: &mut [u8], roster: [u16; 8])
    ensures { s.new ≡ seats_stored roster s.old }
{
    for i in 0..8 {
        roster[i].store(s, SEATS_AT + i * SEAT_SIZE);
    }
}

fn put_places(s: &mut [u8], places: [Place; 8])
    ensures { s.new ≡ places_stored places s.old }
{
    for i in 0..8 {
        put_place(s, i, places[i]);
    }
}

// A whole collator.
pub(crate) fn put_collator(s: &mut [u8], c: Collator)
    requires { c.count ≤ 8 }
    ensures { s.new ≡ collator_stored c s.old }
{
    (c.count as u8).store(s, 0);
    put_seats(s, c.roster);
    put_places(s, c.places);
}

// 41 for a roster that is empty or longer than 8, then 42 for a sender twice, then 32 where the state has no room.
pub fn make(state: &mut [u8], roster: &[u16]) -> Result<(), Refusal>
    ensures value { zero_or (answer_of result) ≡ made_answer roster.now (length state.old) }
    ensures state_after { state.new ≡ made_stored roster.now state.old }
{
    let made = Collator::made(roster)?;
    if state.len() < STATE_SIZE {
        return Err(Refusal::NoRoom);
    }
    put_collator(state, made);
    Ok(())
}
