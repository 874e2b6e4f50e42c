// How many fields a run's digits say, and how many bytes these take.
ghost use Rattle.std.specs.Prelude.{◌≡◌, length};
ghost use Rattle.wire.specs.Value.{width};
ghost use Rattle.formats.specs.Digits.{format_by, formats_by, size_of};

pub(crate) fn width_of(digit: u64) -> usize
    ensures { result ≡ width (format_by digit) }
{
    match digit {
        1 => 1,
        2 | 10 => 2,
        4 | 12 => 4,
        _ => 8,
    }
}

// These two take a digit off until none is left, as store_run does, and count no list.
pub fn count(digits: u64) -> usize
    ensures { result ≡ length (formats_by digits) }
{
    let mut rest = digits;
    let mut n = 0;
    while rest != 0 {
        rest = rest / 16;
        n += 1;
    }
    n
}

pub fn size(digits: u64) -> usize
    ensures { result ≡ size_of (formats_by digits) }
{
    let mut rest = digits;
    let mut n = 0;
    while rest != 0 {
        n += width_of(rest % 16);
        rest = rest / 16;
    }
    n
}
