// One bit of a number.
ghost use Rattle.std.specs.Prelude.{◌≡◌};
ghost use Rattle.wire.specs.Number.{flag_at};

pub fn flag(n: u32, k: u32) -> bool
    ensures { result ≡ flag_at n k }
{
    if 32 <= k {
        return false;
    }
    ((n >> k) & 1) == 1
}
