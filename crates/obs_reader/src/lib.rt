// The observations of a frame's payload, one after the other: a reader keeps the frame's type, the lent payload and where it stands in it.
// Read specs/Reader.antt (where the reader stands after a question; what it answers is observation's `read_entry_of`), then specs/Walk.antt.
// The reader decides nothing, the edition neither: `read_observation_of` decides. `step_from`, with plain parameters, is for callers that keep no
// reader.
#![tactic(auto)]

ghost use Rattle.std.specs.Prelude.{◌≡◌};
ghost use Rattle.refusals.specs.Numbers.{answer_of};
ghost use Rattle.observation.specs.Obs.{read_entry_of};
ghost use Rattle.obs_reader.specs.Reader.{at_after, asked};

use observation::Observation;
use refusals::Refusal;

#[derive(Clone, Copy)]
pub struct ObsReader<'a> {
    pub kind: u16,
    pub payload: &'a [u8],
    pub at: usize,
}

impl<'a> ObsReader<'a> {
    // A reader at the first observation.
    pub fn made(kind: u16, payload: &'a [u8]) -> ObsReader<'a>
        ensures of_kind { result.kind ≡ kind }
        ensures of_payload { result.payload ≡ payload.entry }
        ensures at_first { result.at ≡ 0 }
    {
        ObsReader {
            kind,
            payload,
            at: 0,
        }
    }

    // The observation that the reader stands at, and the reader moves on. It stays on a refusal: 21 where the type is no observation's, 22 where
    // the payload is no OBS, then 25 past the last.
    pub fn next(&mut self) -> Result<Observation, Refusal>
        ensures result_value { answer_of result ≡ read_entry_of self.old.kind self.old.payload.now self.old.at }
        ensures self_after { self.new ≡ asked self.old }
    {
        let observation = observation::read_observation_of(self.kind, self.payload, self.at)?;
        self.at += 1;
        Ok(observation)
    }
}

#[derive(Clone, Copy)]
pub struct Stepped {
    pub answer: Result<Observation, Refusal>,
    pub at: usize,
}

// What a reader answers anywhere in a payload, and where it then stands.
pub fn step_from(kind: u16, payload: &[u8], at: usize) -> Stepped
    ensures answer_value { answer_of result.answer ≡ read_entry_of kind payload.now at }
    ensures at_value { result.at ≡ at_after kind payload.now at }
{
    let mut reader = ObsReader { kind, payload, at };
    let answer = reader.next();
    Stepped {
        answer,
        at: reader.at,
    }
}
