// One flag of a message by its type: the fix mode and the RAIM flags of positions, baselines and the heading, and what a POS_LLH's height is above.
ghost use Rattle.std.specs.Prelude.{◌≡◌};
ghost use Rattle.refusals.specs.Numbers.{answer_of};
ghost use Rattle.flag_numbers.specs.Flagged.{table_for, raim_in, fix_asked, available_asked, repaired_asked, above_sea_asked};

use flags::Fix;
use refusals::Refusal;

// Whose flags a message has. Those of the two positions differ; both baselines and the heading have one table.
#[derive(Clone, Copy)]
pub enum Table {
    Ecef,
    Llh,
    Baseline,
}

// Types by number: the crate that names the messages stands beside this one, and C hands over any number.
#[tactic(auto, unfolding(crate::specs::Flagged::table_for))]
fn table_of(kind: u16) -> Option<Table>
    ensures { result ≡ table_for kind }
{
    match kind {
        0x0200 => Some(Table::Ecef),
        0x0201 => Some(Table::Llh),
        0x0202 | 0x0203 | 0x0207 => Some(Table::Baseline),
        _ => None,
    }
}

// UnknownType for a type that has no fix mode.
pub fn fix_of(kind: u16, flags: u8) -> Result<Fix, Refusal>
    ensures { answer_of result ≡ fix_asked kind flags }
{
    match table_of(kind) {
        Some(Table::Ecef) => Ok(flags::pos_ecef_fix(flags)),
        Some(Table::Llh) => Ok(flags::pos_llh_fix(flags)),
        Some(Table::Baseline) => Ok(flags::baseline_fix(flags)),
        None => Err(Refusal::UnknownType),
    }
}

// A flag of RAIM, by its place in POS_LLH and in all others.
fn raim_of(table: Option<Table>, llh: bool, other: bool) -> Result<bool, Refusal>
    ensures { answer_of result ≡ raim_in table llh other }
{
    match table {
        Some(Table::Llh) => Ok(llh),
        Some(_) => Ok(other),
        None => Err(Refusal::UnknownType),
    }
}

// UnknownType for a type that has no such flag.
pub fn raim_available_of(kind: u16, flags: u8) -> Result<bool, Refusal>
    ensures { answer_of result ≡ available_asked kind flags }
{
    raim_of(
        table_of(kind),
        flags::pos_llh_raim_available(flags),
        flags::raim_available(flags),
    )
}

pub fn raim_repaired_of(kind: u16, flags: u8) -> Result<bool, Refusal>
    ensures { answer_of result ≡ repaired_asked kind flags }
{
    raim_of(
        table_of(kind),
        flags::pos_llh_raim_repaired(flags),
        flags::raim_repaired(flags),
    )
}

// Of a POS_LLH whether its height is above mean sea level, and not above the ellipsoid; UnknownType for any other type.
pub fn above_sea_of(kind: u16, flags: u8) -> Result<bool, Refusal>
    ensures { answer_of result ≡ above_sea_asked kind flags }
{
    if kind == 0x0201 {
        return Ok(flags::pos_llh_above_sea(flags));
    }
    Err(Refusal::UnknownType)
}
