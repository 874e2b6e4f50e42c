// The carrier phase in 1/256 cycle, and back.
ghost use Rattle.std.specs.Prelude.{◌≡◌};
ghost use Rattle.phases.specs.Phase.{phase_of};
ghost use Rattle.phases.specs.Phased.{parts_number, cycles_after, parts_after};

#[unsafe(no_mangle)]
pub extern "C" fn sbp_carrier_phase(l_i: i32, l_f: u8) -> i64
    ensures { result ≡ phase_of (record { l_i = l_i; l_f = l_f }) }
{
    exports::sbp_carrier_phase(l_i, l_f)
}

// 0 with the one pair through l_i and l_f, or 33.
#[unsafe(no_mangle)]
pub extern "C" fn sbp_phase_parts(phase: i64, l_i: &mut i32, l_f: &mut u8) -> u8
    ensures value { result ≡ parts_number phase }
    ensures l_i_after { l_i.new ≡ cycles_after phase l_i.old }
    ensures l_f_after { l_f.new ≡ parts_after phase l_f.old }
{
    exports::sbp_phase_parts(phase, l_i, l_f)
}
