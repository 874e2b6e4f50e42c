// The carrier phase in 1/256 cycle, and back.
ghost use Rattle.std.specs.Prelude.{◌≡◌};
ghost use Rattle.phases.specs.Phase.{phase_of, read_phase};
ghost use Rattle.refusals.specs.Numbers.{answer_of};

use refusals::Refusal;

// Whole cycles and 256ths, as an observation has them.
#[derive(Clone, Copy)]
pub struct Phase {
    pub l_i: i32,
    pub l_f: u8,
}

pub fn carrier_phase(phase: Phase) -> i64
    ensures { result ≡ phase_of phase }
{
    256 * i64::from(phase.l_i) + i64::from(phase.l_f)
}

// The one pair that stands for a phase: 33 outside the range of 40 bits. The shift rounds down, so l_f is what is left above.
#[tactic(auto, unfolding(crate::specs::Phase::read_phase))]
pub fn phase_parts(phase: i64) -> Result<Phase, Refusal>
    ensures { answer_of result ≡ read_phase phase }
{
    if phase < -549755813888 || 549755813887 < phase {
        return Err(Refusal::PhaseOutOfRange);
    }
    Ok(Phase {
        l_i: (phase >> 8) as i32,
        l_f: (phase & 255) as u8,
    })
}
