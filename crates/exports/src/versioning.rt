// Which library is linked.
ghost use Rattle.std.specs.Prelude.{◌≡◌};

// 10000 for each major number, 100 for each minor one, and the patch: 0.14.0.
pub fn sbp_version() -> u32
    ensures { result ≡ 1400 }
{
    1400
}
