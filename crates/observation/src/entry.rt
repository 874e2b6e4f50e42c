// One observation of an OBS payload.
ghost use Rattle.std.specs.Prelude.{◌≡◌};
ghost use Rattle.layouts.specs.Field.{decode};
ghost use Rattle.observation.specs.Edition.{observation, first};
ghost use Rattle.observation.specs.Obs.{read_entry, read_entry_of};
ghost use Rattle.refusals.specs.Numbers.{answer_of};

use crate::obs::{EACH, HEAD, is_obs, is_obs_length};
use refusals::Refusal;
use wire::InBytes;

// 003's P, L.i, L.f, cn0, lock, sid.sat, sid.code and sid.reserved.
#[derive(Clone, Copy)]
pub struct Observation {
    pub p: u32,
    pub l_i: i32,
    pub l_f: u8,
    pub cn0: u8,
    pub lock: u16,
    pub sat: u16,
    pub code: u8,
    pub reserved: u8,
}

fn take(s: &[u8]) -> Observation
    ensures { result ≡ observation.make (decode observation.fields s.now 0) }
{
    Observation {
        p: u32::read(s, 0),
        l_i: i32::read(s, 4),
        l_f: u8::read(s, 8),
        cn0: u8::read(s, 9),
        lock: u16::read(s, 10),
        sat: u16::read(s, 12),
        code: u8::read(s, 14),
        reserved: u8::read(s, 15),
    }
}

// Observation i of a payload: 22 where the payload is no OBS, then 25 where it has no such observation.
#[tactic(auto, unfolding(crate::specs::Obs::read_entry))]
pub fn read_observation(s: &[u8], i: usize) -> Result<Observation, Refusal>
    ensures { answer_of result ≡ read_entry first s.now i }
{
    if !is_obs_length(s.len()) {
        return Err(Refusal::WrongLength);
    }
    if i < (s.len() - HEAD) / EACH {
        let start = HEAD + i * EACH;
        let end = start + EACH;
        return Ok(take(&s[start..end]));
    }
    Err(Refusal::NoObservation)
}

// The same of a frame's payload by the frame's type: 21 where that is no observation type, then 22, 25.
#[tactic(auto, unfolding(crate::specs::Obs::read_entry, crate::specs::Obs::read_entry_of))]
pub fn read_observation_of(kind: u16, s: &[u8], i: usize) -> Result<Observation, Refusal>
    ensures { answer_of result ≡ read_entry_of kind s.now i }
{
    if is_obs(kind) {
        return read_observation(s, i);
    }
    Err(Refusal::UnknownType)
}
