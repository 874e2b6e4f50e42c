// A collator in lent bytes whose roster takes senders as they come: the first eight different ones of observation frames.
ghost use Rattle.std.specs.Prelude.{◌≡◌, ◌<◌, ◌≤◌, length};
ghost use Rattle.refusals.specs.Refusals.{zero_or};
ghost use Rattle.refusals.specs.Numbers.{answer_of};
ghost use Rattle.places.specs.State.{state_size};
ghost use Rattle.states.specs.Enlist.{growing_answer, growing_stored, seat_taken, new_seat_in, joined_in, enlisted_in, enlist_answer, enlist_stored};

use crate::feeding::roster_in;
use crate::making::put_collator;
use crate::sizes::STATE_SIZE;
use epochs::Collator;
use places::sizes::{SEAT_SIZE, SEATS_AT};
use refusals::Refusal;
use wire::InBytes;

// A fresh collator that lists nobody; 32 where the state has no room.
#[tactic(auto, unfolding(crate::specs::Enlist::growing_in))]
pub fn grow(state: &mut [u8]) -> Result<(), Refusal>
    ensures value { zero_or (answer_of result) ≡ growing_answer (length state.old) }
    ensures state_after { state.new ≡ growing_stored state.old }
{
    if state.len() < STATE_SIZE {
        return Err(Refusal::NoRoom);
    }
    put_collator(state, Collator::empty());
    Ok(())
}

// A sender in the seat that it takes, which is then the last.
#[tactic(auto, unfolding(crate::specs::Enlist::seat_taken))]
fn take_seat(s: &mut [u8], i: usize, sender: u16)
    requires { i < 8 }
    ensures { s.new ≡ seat_taken s.old i sender }
{
    sender.store(s, SEATS_AT + i * SEAT_SIZE);
    ((i + 1) as u8).store(s, 0);
}

// The seat that a sender takes, by the collator's own rule.
fn new_seat_in(s: &[u8], sender: u16) -> Option<usize>
    requires { state_size ≤ length s.now }
    ensures { result ≡ new_seat_in s.now sender }
{
    enlisting::new_seat(roster_in(s), sender)
}

fn join(s: &mut [u8], sender: u16)
    requires { state_size ≤ length s.old }
    ensures { s.new ≡ joined_in s.old sender }
{
    if let Some(i) = new_seat_in(s, sender) {
        take_seat(s, i, sender);
    }
}

// The sender of an observation frame has its seat before the frame is fed.
#[tactic(auto, unfolding(crate::specs::Enlist::enlisted_in))]
fn enlist_in(s: &mut [u8], kind: u16, sender: u16)
    requires { state_size ≤ length s.old }
    ensures { s.new ≡ enlisted_in s.old kind sender }
{
    if observation::is_obs(kind) {
        join(s, sender);
    }
}

// 32 where the state has no room.
#[tactic(auto, unfolding(crate::specs::Enlist::enlist_in))]
pub fn enlist(state: &mut [u8], kind: u16, sender: u16) -> Result<(), Refusal>
    ensures value { zero_or (answer_of result) ≡ enlist_answer state.old kind sender }
    ensures state_after { state.new ≡ enlist_stored state.old kind sender }
{
    if state.len() < STATE_SIZE {
        return Err(Refusal::NoRoom);
    }
    enlist_in(state, kind, sender);
    Ok(())
}
