// A collator in the caller's bytes.
ghost use Rattle.std.specs.Prelude.{◌≡◌, length};
ghost use Rattle.states.specs.Feed.{made_answer, made_stored, fed_in};
ghost use Rattle.states.specs.Enlist.{growing_answer, growing_stored, enlist_answer, enlist_stored};

use crate::bits::bit_or_code;

// 41 for a roster that is empty or longer than 8, then 42 for a sender twice, then 32 where the state has no room.
pub fn sbp_collator(state: &mut [u8], roster: &[u16]) -> u8
    ensures value { result ≡ made_answer roster.now (length state.old) }
    ensures state_after { state.new ≡ made_stored roster.now state.old }
{
    refusals::code(states::make(state, roster))
}

// A fresh collator that lists nobody; 32 where the state has no room.
pub fn sbp_growing(state: &mut [u8]) -> u8
    ensures value { result ≡ growing_answer (length state.old) }
    ensures state_after { state.new ≡ growing_stored state.old }
{
    refusals::code(states::grow(state))
}

// The sender of an observation frame has its seat before the frame is fed; 32 where the state has no room.
pub fn sbp_enlist(state: &mut [u8], kind: u16, sender: u16) -> u8
    ensures value { result ≡ enlist_answer state.old kind sender }
    ensures state_after { state.new ≡ enlist_stored state.old kind sender }
{
    refusals::code(states::enlist(state, kind, sender))
}

// 32 where state or report is too short, then 46, 22, 43, 44, 45, 47; 0 taken; 1 an epoch, whose row is at the start of report.
pub fn sbp_feed(state: &mut [u8], kind: u16, sender: u16, payload: &[u8], report: &mut [u8]) -> u8
    ensures value { result ≡ (fed_in state.old (record { kind = kind; sender = sender; payload = payload.now }) report.old).answer }
    ensures state_after { state.new ≡ (fed_in state.old (record { kind = kind; sender = sender; payload = payload.now }) report.old).state }
    ensures report_after { report.new ≡ (fed_in state.old (record { kind = kind; sender = sender; payload = payload.now }) report.old).report }
{
    bit_or_code(states::feed(state, kind, sender, payload, report))
}
