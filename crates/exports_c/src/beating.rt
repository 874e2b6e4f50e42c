// What the flags of a HEARTBEAT mean.
ghost use Rattle.std.specs.Prelude.{◌≡◌};
ghost use Rattle.system.specs.HeartbeatFlags.{system_error, io_error, nap_error, external_antenna};

#[unsafe(no_mangle)]
pub extern "C" fn sbp_system_error(flags: u32) -> bool
    ensures { result ≡ system_error flags }
{
    exports::sbp_system_error(flags)
}

#[unsafe(no_mangle)]
pub extern "C" fn sbp_io_error(flags: u32) -> bool
    ensures { result ≡ io_error flags }
{
    exports::sbp_io_error(flags)
}

#[unsafe(no_mangle)]
pub extern "C" fn sbp_nap_error(flags: u32) -> bool
    ensures { result ≡ nap_error flags }
{
    exports::sbp_nap_error(flags)
}

#[unsafe(no_mangle)]
pub extern "C" fn sbp_external_antenna(flags: u32) -> bool
    ensures { result ≡ external_antenna flags }
{
    exports::sbp_external_antenna(flags)
}
