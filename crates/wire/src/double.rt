// A double kept to the bit.
ghost use Rattle.std.specs.Prelude.{◌≡◌};
ghost use Rattle.std.specs.Float.{binary64};
ghost use Rattle.std.specs.Float.Ieee.{nan_bits};
ghost use Rattle.wire.specs.Double.{double_of, double_bits};

// nan is the pattern where value is a NaN, else 0: an f64 alone cannot bring a NaN's pattern back.
#[derive(Clone, Copy)]
pub struct Double {
    pub value: f64,
    pub nan: u64,
}

// Without the sign's bit, a NaN's pattern is above infinity's.
fn is_nan_pattern(n: u64) -> bool
    ensures { result ≡ nan_bits binary64 n }
{
    n % 0x8000_0000_0000_0000 > 0x7ff0_0000_0000_0000
}

impl Double {
    pub fn of_bits(n: u64) -> Self
        ensures { result ≡ double_of n }
    {
        if is_nan_pattern(n) {
            return Double {
                value: 0.0 / 0.0,
                nan: n,
            };
        }
        Double {
            value: f64::from_bits(n),
            nan: 0,
        }
    }

    pub fn bits(self) -> u64
        ensures { result ≡ double_bits self }
    {
        let value = self.value;
        let nan = self.nan;
        if value == value {
            return f64::to_bits(value);
        }
        if is_nan_pattern(nan) {
            return nan;
        }
        0x7ff8_0000_0000_0000
    }
}
