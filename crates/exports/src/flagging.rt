// One flag of a message, as a number: the fix mode and the RAIM flags of positions, baselines and the heading, and what a POS_LLH's height is above.
ghost use Rattle.std.specs.Prelude.{◌≡◌};
ghost use Rattle.flag_numbers.specs.Flagged.{fix_answer, available_answer, repaired_answer, above_sea_answer};

use crate::bits::bit_or_code;

// 0 single point, 1 float, 2 fixed, 3 a mode that the table leaves out; 21 for a type that has none.
pub fn sbp_fix(kind: u16, flags: u8) -> u8
    ensures { result ≡ fix_answer kind flags }
{
    match flag_numbers::fix_of(kind, flags) {
        Ok(fix) => fix as u8,
        Err(e) => e.number(),
    }
}

// 0 or 1; 21 for a type that has no such flag.
pub fn sbp_raim_available(kind: u16, flags: u8) -> u8
    ensures { result ≡ available_answer kind flags }
{
    bit_or_code(flag_numbers::raim_available_of(kind, flags))
}

pub fn sbp_raim_repaired(kind: u16, flags: u8) -> u8
    ensures { result ≡ repaired_answer kind flags }
{
    bit_or_code(flag_numbers::raim_repaired_of(kind, flags))
}

// POS_LLH: 1 where the height is above mean sea level, 0 where it is above the ellipsoid; 21 for any other type.
pub fn sbp_above_sea(kind: u16, flags: u8) -> u8
    ensures { result ≡ above_sea_answer kind flags }
{
    bit_or_code(flag_numbers::above_sea_of(kind, flags))
}
