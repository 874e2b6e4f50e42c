// The ranges of document 01.
ghost use Rattle.std.specs.Prelude.{◌≡◌};
ghost use Rattle.flags.specs.Range.{in_ns, fix_up_to};

use crate::flags::fix_mode;

#[tactic(auto, unfolding(crate::specs::Range::in_ns))]
pub fn ns_allowed(ns: i32) -> bool
    ensures { result ≡ in_ns ns }
{
    (-500_000..=500_000).contains(&ns)
}

// The fix mode is at most last.
#[tactic(auto, unfolding(crate::specs::Range::fix_up_to))]
pub fn fix_allowed(flags: u8, last: u8) -> bool
    ensures { result ≡ fix_up_to last flags }
{
    fix_mode(flags) <= last
}
