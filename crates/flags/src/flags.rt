// What the flags of a position, a baseline and the heading mean. The fix modes of the two positions differ.
ghost use Rattle.std.specs.Prelude.{◌≡◌, ◌%◌};
ghost use Rattle.flags.specs.Flags.{chosen, ecef_fix, llh_fix, baseline_fix, raim_available, raim_repaired, llh_above_sea, llh_raim_available, llh_raim_repaired};

// Reserved is a mode that the message's table leaves out; a record that was read never has it.
#[derive(Clone, Copy, Debug, PartialEq, Eq)]
pub enum Fix {
    SinglePoint = 0,
    Float = 1,
    Fixed = 2,
    Reserved = 3,
}

// The fix mode is the low three bits.
pub(crate) fn fix_mode(flags: u8) -> u8
    ensures { result ≡ flags % 8 }
{
    flags & 7
}

#[tactic(auto, unfolding(crate::specs::Flags::chosen))]
fn chosen(flags: u8, zeroth: Fix, first: Fix, second: Fix) -> Fix
    ensures { result ≡ chosen (flags % 8) zeroth first second }
{
    match fix_mode(flags) {
        0 => zeroth,
        1 => first,
        2 => second,
        _ => Fix::Reserved,
    }
}

// POS_ECEF.
pub fn pos_ecef_fix(flags: u8) -> Fix
    ensures { result ≡ ecef_fix flags }
{
    chosen(flags, Fix::SinglePoint, Fix::Float, Fix::Fixed)
}

// POS_LLH.
pub fn pos_llh_fix(flags: u8) -> Fix
    ensures { result ≡ llh_fix flags }
{
    chosen(flags, Fix::SinglePoint, Fix::Fixed, Fix::Float)
}

// BASELINE_ECEF, BASELINE_NED and BASELINE_HEADING.
pub fn baseline_fix(flags: u8) -> Fix
    ensures { result ≡ baseline_fix flags }
{
    chosen(flags, Fix::Float, Fix::Fixed, Fix::Reserved)
}

// The flags below are a line each over `wire::flag`, by the names that docs/ and the functions for C have.
// All but POS_LLH: the RAIM check was available; the solution came from RAIM repair.
pub fn raim_available(flags: u8) -> bool
    ensures { result ≡ raim_available flags }
{
    wire::flag(flags as u32, 3)
}

pub fn raim_repaired(flags: u8) -> bool
    ensures { result ≡ raim_repaired flags }
{
    wire::flag(flags as u32, 4)
}

// POS_LLH: the height is above mean sea level, not above the ellipsoid.
pub fn pos_llh_above_sea(flags: u8) -> bool
    ensures { result ≡ llh_above_sea flags }
{
    wire::flag(flags as u32, 3)
}

pub fn pos_llh_raim_available(flags: u8) -> bool
    ensures { result ≡ llh_raim_available flags }
{
    wire::flag(flags as u32, 4)
}

pub fn pos_llh_raim_repaired(flags: u8) -> bool
    ensures { result ≡ llh_raim_repaired flags }
{
    wire::flag(flags as u32, 5)
}
