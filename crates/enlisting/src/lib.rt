// A collator whose roster takes senders as they come, the first eight different ones of observation frames.
// Read specs/FirstEight.antt (who they are, in document 01's words) and specs/Enlisting.antt (how they come to their seats, and that it makes no
// difference to a collator that was made of them) first.
#![tactic(auto)]

ghost use Rattle.std.specs.Prelude.{◌≡◌};
ghost use Rattle.enlisting.specs.Enlisting.{new_seat, joined_to, enlisted_to};

use epochs::{Collator, Roster};

// The seat that a sender takes: the next one, where it has none yet and there is room.
pub fn new_seat(roster: Roster, sender: u16) -> Option<usize>
    ensures { result ≡ new_seat roster.senders roster.count sender }
{
    if roster.seat_of(sender).is_some() {
        return None;
    }
    if 8 <= roster.count {
        return None;
    }
    Some(roster.count)
}

// A sender takes its new seat, if it has one to take.
fn join(collator: &mut Collator, sender: u16)
    ensures { collator.new ≡ joined_to collator.old sender }
{
    if let Some(i) = new_seat(collator.listed(), sender) {
        collator.roster[i] = sender;
        collator.count = i + 1;
    }
}

// The sender of an observation frame has its seat before the frame is fed. Start with `Collator::empty`.
#[tactic(auto, unfolding(crate::specs::Enlisting::enlisted_to))]
pub fn enlist(collator: &mut Collator, kind: u16, sender: u16)
    ensures { collator.new ≡ enlisted_to collator.old kind sender }
{
    if observation::is_obs(kind) {
        join(collator, sender);
    }
}
