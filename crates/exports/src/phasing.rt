// The carrier phase in 1/256 cycle, and back.
ghost use Rattle.std.specs.Prelude.{◌≡◌};
ghost use Rattle.phases.specs.Phase.{phase_of};
ghost use Rattle.phases.specs.Phased.{parts_number, cycles_after, parts_after};

use phases::Phase;

pub fn sbp_carrier_phase(l_i: i32, l_f: u8) -> i64
    ensures { result ≡ phase_of (record { l_i = l_i; l_f = l_f }) }
{
    phases::carrier_phase(Phase { l_i, l_f })
}

// 0 with the one pair through l_i and l_f, or 33.
pub fn sbp_phase_parts(phase: i64, l_i: &mut i32, l_f: &mut u8) -> u8
    ensures value { result ≡ parts_number phase }
    ensures l_i_after { l_i.new ≡ cycles_after phase l_i.old }
    ensures l_f_after { l_f.new ≡ parts_after phase l_f.old }
{
    match phases::phase_parts(phase) {
        Ok(parts) => {
            *l_i = parts.l_i;
            *l_f = parts.l_f;
            0
        }
        Err(e) => e.number(),
    }
}
