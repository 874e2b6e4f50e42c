// One value in bytes, little-endian, at an offset: read, or stored where it has room. Each width is made of two halves.
ghost use Rattle.std.specs.Prelude.{ℕ, ◌≡◌};
ghost use Rattle.std.specs.Int.{w16, w32};
ghost use Rattle.wire.specs.Number.{number_at, stored_at};
ghost use Rattle.wire.specs.Value.{width, bits_of, value_of, u8, u16, u32, u64, s16, s32, double};

use crate::double::Double;
use crate::store::room;

// A byte past the end reads 0; a store that runs past the end changes nothing.
pub trait InBytes {
    ghost width: { ℕ };

    ghost of_bits: { ℕ → Self };

    ghost bits: { Self → ℕ };

    fn read(s: &[u8], at: usize) -> Self
        ensures { result ≡ of_bits (number_at width s.now at) };

    fn store(self, buf: &mut [u8], at: usize)
        ensures { buf.new ≡ stored_at width (bits self) buf.old at };
}

impl InBytes for u8 {
    ghost width = { width u8 };

    ghost of_bits = { value_of u8 };

    ghost bits = { bits_of u8 };

    fn read(s: &[u8], at: usize) -> u8 {
        if s.len() <= at {
            return 0;
        }
        s[at]
    }

    fn store(self, buf: &mut [u8], at: usize) {
        if at < buf.len() {
            buf[at] = self;
        }
    }
}

impl InBytes for u16 {
    ghost width = { width u16 };

    ghost of_bits = { value_of u16 };

    ghost bits = { bits_of u16 };

    fn read(s: &[u8], at: usize) -> u16 {
        if s.len() <= at {
            return 0;
        }
        (u8::read(s, at) as u16) + 0x100 * (u8::read(s, at + 1) as u16)
    }

    fn store(self, buf: &mut [u8], at: usize) {
        if room(buf.len(), at, 2) {
            ((self % 0x100) as u8).store(buf, at);
            ((self / 0x100) as u8).store(buf, at + 1);
        }
    }
}

impl InBytes for u32 {
    ghost width = { width u32 };

    ghost of_bits = { value_of u32 };

    ghost bits = { bits_of u32 };

    fn read(s: &[u8], at: usize) -> u32 {
        if s.len() <= at {
            return 0;
        }
        (u16::read(s, at) as u32) + 0x1_0000 * (u16::read(s, at + 2) as u32)
    }

    fn store(self, buf: &mut [u8], at: usize) {
        if room(buf.len(), at, 4) {
            ((self % 0x1_0000) as u16).store(buf, at);
            ((self / 0x1_0000) as u16).store(buf, at + 2);
        }
    }
}

impl InBytes for u64 {
    ghost width = { width u64 };

    ghost of_bits = { value_of u64 };

    ghost bits = { bits_of u64 };

    fn read(s: &[u8], at: usize) -> u64 {
        if s.len() <= at {
            return 0;
        }
        (u32::read(s, at) as u64) + 0x1_0000_0000 * (u32::read(s, at + 4) as u64)
    }

    fn store(self, buf: &mut [u8], at: usize) {
        if room(buf.len(), at, 8) {
            ((self % 0x1_0000_0000) as u32).store(buf, at);
            ((self / 0x1_0000_0000) as u32).store(buf, at + 4);
        }
    }
}

// Signed numbers are in two's complement.
impl InBytes for i16 {
    ghost width = { width s16 };

    ghost of_bits = { value_of s16 };

    ghost bits = { bits_of s16 };

    fn read(s: &[u8], at: usize) -> i16 {
        u16::read(s, at).cast_signed()
    }

    fn store(self, buf: &mut [u8], at: usize) {
        self.cast_unsigned().store(buf, at);
    }
}

impl InBytes for i32 {
    ghost width = { width s32 };

    ghost of_bits = { value_of s32 };

    ghost bits = { bits_of s32 };

    fn read(s: &[u8], at: usize) -> i32 {
        u32::read(s, at).cast_signed()
    }

    fn store(self, buf: &mut [u8], at: usize) {
        self.cast_unsigned().store(buf, at);
    }
}

impl InBytes for Double {
    ghost width = { width double };

    ghost of_bits = { value_of double };

    ghost bits = { bits_of double };

    fn read(s: &[u8], at: usize) -> Double {
        Double::of_bits(u64::read(s, at))
    }

    fn store(self, buf: &mut [u8], at: usize) {
        self.bits().store(buf, at);
    }
}
