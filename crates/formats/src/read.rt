// A run of fields read from bytes into a row.
ghost use Rattle.std.specs.Prelude.{◌≡◌};
ghost use Rattle.wire.specs.Number.{bytes_stored};
ghost use Rattle.wire.specs.Value.{value_at};
ghost use Rattle.formats.specs.Wide.{wide_of};
ghost use Rattle.formats.specs.Digits.{format_by, formats_by, numbers_at};

use crate::digits::{count, width_of};
use wire::InBytes;

// A signed number is extended by its sign.
fn number_at(s: &[u8], at: usize, digit: u64) -> u64
    ensures { result ≡ wide_of (format_by digit) (value_at (format_by digit) s.now at) }
{
    match digit {
        1 => u8::read(s, at) as u64,
        2 => u16::read(s, at) as u64,
        4 => u32::read(s, at) as u64,
        10 => (i16::read(s, at) as i64).cast_unsigned(),
        12 => (i32::read(s, at) as i64).cast_unsigned(),
        _ => u64::read(s, at),
    }
}

// Whole, or nothing where the row is too short. A digit is taken off until none is left, as in store_run.
pub fn read_run(row: &mut [u64], s: &[u8], digits: u64)
    ensures { row.new ≡ bytes_stored (numbers_at (formats_by digits) s.now 0) row.old 0 }
{
    if row.len() < count(digits) {
        return;
    }
    let mut rest = digits;
    let mut i = 0;
    let mut at = 0;
    while rest != 0 {
        row[i] = number_at(s, at, rest % 16);
        at += width_of(rest % 16);
        rest = rest / 16;
        i += 1;
    }
}
