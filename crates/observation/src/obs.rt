// OBS, 0x0049: the header and the number of observations that follow.
ghost use Rattle.std.specs.Prelude.{◌≡◌};
ghost use Rattle.observation.specs.Edition.{fitting, first, is_obs};
ghost use Rattle.observation.specs.Obs.{read_obs};
ghost use Rattle.refusals.specs.Numbers.{answer_of};

use refusals::Refusal;
use wire::InBytes;

// The first edition's sizes (specs/Edition.antt says them by its fields): of the header, of one observation, and how many at most.
pub const HEAD: usize = 7;

pub const EACH: usize = 16;

pub const MOST: usize = 15;

// The observations themselves stay in the payload: `read_observation` gives one by its index, below count.
#[derive(Clone, Copy)]
pub struct Obs {
    pub tow: u32,
    pub wn: u16,
    pub n_obs: u8,
    pub count: u8,
}

// Whether a frame of this type is an observation frame.
#[tactic(auto, unfolding(crate::specs::Edition::is_obs))]
pub fn is_obs(kind: u16) -> bool
    ensures { result ≡ is_obs kind }
{
    kind == 0x0049
}

// Whether a payload of n bytes is an OBS: 16k + 7 with k from 0 to 15.
pub fn is_obs_length(n: usize) -> bool
    ensures { result ≡ fitting first n }
{
    n >= HEAD && (n - HEAD) % EACH == 0 && (n - HEAD) / EACH <= MOST
}

#[tactic(auto, unfolding(crate::specs::Obs::read_obs))]
pub fn read_obs(s: &[u8]) -> Result<Obs, Refusal>
    ensures { answer_of result ≡ read_obs s.now }
{
    if !is_obs_length(s.len()) {
        return Err(Refusal::WrongLength);
    }
    Ok(Obs {
        tow: u32::read(s, 0),
        wn: u16::read(s, 4),
        n_obs: u8::read(s, 6),
        count: ((s.len() - HEAD) / EACH) as u8,
    })
}
