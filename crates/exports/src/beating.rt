// What the flags of a HEARTBEAT mean.
ghost use Rattle.std.specs.Prelude.{◌≡◌};
ghost use Rattle.system.specs.HeartbeatFlags.{system_error, io_error, nap_error, external_antenna};

pub fn sbp_system_error(flags: u32) -> bool
    ensures { result ≡ system_error flags }
{
    system::system_error(flags)
}

pub fn sbp_io_error(flags: u32) -> bool
    ensures { result ≡ io_error flags }
{
    system::io_error(flags)
}

pub fn sbp_nap_error(flags: u32) -> bool
    ensures { result ≡ nap_error flags }
{
    system::nap_error(flags)
}

pub fn sbp_external_antenna(flags: u32) -> bool
    ensures { result ≡ external_antenna flags }
{
    system::external_antenna(flags)
}
