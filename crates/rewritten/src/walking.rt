// The observations of a payload by a reader over it, which is asked one question after the other.
ghost use Rattle.std.specs.Prelude.{◌≡◌};
ghost use Rattle.refusals.specs.Numbers.{answer_of};
ghost use Rattle.observation.specs.Obs.{read_entry_of};
ghost use Rattle.obs_reader.specs.Reader.{at_after};

use obs_reader::ObsReader;
use observation::Observation;
use refusals::Refusal;

const NONE: Observation = Observation {
    p: 0,
    l_i: 0,
    l_f: 0,
    cn0: 0,
    lock: 0,
    sat: 0,
    code: 0,
    reserved: 0,
};

// What a reader answers when it is asked twice.
#[derive(Clone, Copy)]
pub struct Two {
    pub first: Result<Observation, Refusal>,
    pub second: Result<Observation, Refusal>,
}

fn asked(kind: u16, payload: &[u8]) -> Two
    ensures first { answer_of result.first ≡ read_entry_of kind payload.now 0 }
    ensures second { answer_of result.second ≡ read_entry_of kind payload.now (at_after kind payload.now 0) }
{
    let mut reader = ObsReader::made(kind, payload);
    let first = reader.next();
    let second = reader.next();
    Two { first, second }
}

// As the writer takes them: fifteen, of which the payload's count is written.
pub fn entries(payload: &[u8]) -> [Observation; 15] {
    let two = asked(0x0049, payload);
    let mut all = [NONE; 15];
    all[0] = two.first.unwrap_or(NONE);
    all[1] = two.second.unwrap_or(NONE);
    all
}
