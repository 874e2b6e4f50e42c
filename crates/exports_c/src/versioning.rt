// Which library is linked.
ghost use Rattle.std.specs.Prelude.{◌≡◌};

// 10000 for each major number, 100 for each minor one, and the patch: 0.14.0.
#[unsafe(no_mangle)]
pub extern "C" fn sbp_version() -> u32
    ensures { result ≡ 1400 }
{
    exports::sbp_version()
}
