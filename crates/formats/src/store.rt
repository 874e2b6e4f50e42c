// A row's numbers stored as the fields of a run.
ghost use Rattle.std.specs.Prelude.{◌≡◌};
ghost use Rattle.wire.specs.Number.{stored_at};
ghost use Rattle.wire.specs.Value.{width};
ghost use Rattle.formats.specs.Digits.{format_by, formats_by, run_stored};

use crate::digits::width_of;
use crate::fits::number_of;
use wire::InBytes;

fn store_number(buf: &mut [u8], at: usize, digit: u64, n: u64)
    ensures { buf.new ≡ stored_at (width (format_by digit)) n buf.old at }
{
    match digit {
        1 => ((n % 0x100) as u8).store(buf, at),
        2 | 10 => ((n % 0x1_0000) as u16).store(buf, at),
        4 | 12 => ((n % 0x1_0000_0000) as u32).store(buf, at),
        _ => n.store(buf, at),
    }
}

// A digit is taken off until none is left, and its place in the row counted: an iterator of digits would be a type with laws of its own for five
// loops, and no plainer.
pub fn store_run(buf: &mut [u8], row: &[u64], digits: u64)
    ensures { buf.new ≡ run_stored (formats_by digits) row.now 0 buf.old 0 }
{
    let mut rest = digits;
    let mut i = 0;
    let mut at = 0;
    while rest != 0 {
        store_number(buf, at, rest % 16, number_of(row, i));
        at += width_of(rest % 16);
        rest = rest / 16;
        i += 1;
    }
}
