// The index itself, and the counts in it.
ghost use Rattle.std.specs.Prelude.{◌≡◌};
ghost use Rattle.index.specs.Index.{empty};
ghost use Rattle.index.specs.Inner.{tallied};

use payloads::MESSAGES;

// How far open reading came, how many entries are held, and a count for each type that has a reading, by the type's place among the messages.
#[derive(Clone, Copy)]
pub struct Index {
    pub reached: usize,
    pub held: usize,
    pub counts: [u64; MESSAGES],
}

// Of no capture.
pub fn empty() -> Index
    ensures { result ≡ empty }
{
    Index {
        reached: 0,
        held: 0,
        counts: [0; MESSAGES],
    }
}

impl Index {
    // One frame more of a type; of a type without a reading nothing is counted. The sum wraps, so that no value of an index traps.
    pub(crate) fn tally(&mut self, kind: u16)
        ensures { self.new ≡ tallied self.old kind }
    {
        if let Some(place) = payloads::place_of(kind) {
            self.counts[place] = self.counts[place].wrapping_add(1);
        }
    }
}
