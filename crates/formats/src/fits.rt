// Whether each field of a run can hold its number of a row.
ghost use Rattle.std.specs.Prelude.{◌≡◌, ◌||◌, leb, ltb, get_or};
ghost use Rattle.formats.specs.Wide.{fits_in};
ghost use Rattle.formats.specs.Digits.{format_by, formats_by, run_fits};

// A missing number counts 0.
pub(crate) fn number_of(row: &[u64], i: usize) -> u64
    ensures { result ≡ get_or row.now i 0 }
{
    row.get(i).copied().unwrap_or(0)
}

// A signed number in 64 bits lies below its type's half, or among the last numbers of 64 bits.
fn low_or_high(n: u64, below: u64, from: u64) -> bool
    ensures { result ≡ ltb n below || leb from n }
{
    n < below || from <= n
}

fn fits(n: u64, digit: u64) -> bool
    ensures { result ≡ fits_in (format_by digit) n }
{
    match digit {
        1 => n < 0x100,
        2 => n < 0x1_0000,
        4 => n < 0x1_0000_0000,
        10 => low_or_high(n, 0x8000, 0xffff_ffff_ffff_8000),
        12 => low_or_high(n, 0x8000_0000, 0xffff_ffff_8000_0000),
        _ => true,
    }
}

// A digit is taken off until none is left, as in store_run.
pub fn run_fits(row: &[u64], digits: u64) -> bool
    ensures { result ≡ run_fits (formats_by digits) row.now 0 }
{
    let mut rest = digits;
    let mut i = 0;
    while rest != 0 {
        if fits(number_of(row, i), rest % 16) {
            rest = rest / 16;
            i += 1;
        } else {
            return false;
        }
    }
    true
}
