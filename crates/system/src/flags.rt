// What the flags of a HEARTBEAT mean: a line each over `wire::flag`, by the names that docs/ and the functions for C have.
ghost use Rattle.std.specs.Prelude.{◌≡◌};
ghost use Rattle.system.specs.HeartbeatFlags.{system_error, io_error, nap_error, external_antenna};

pub fn system_error(flags: u32) -> bool
    ensures { result ≡ system_error flags }
{
    wire::flag(flags, 0)
}

pub fn io_error(flags: u32) -> bool
    ensures { result ≡ io_error flags }
{
    wire::flag(flags, 1)
}

// An error in the SwiftNAP.
pub fn nap_error(flags: u32) -> bool
    ensures { result ≡ nap_error flags }
{
    wire::flag(flags, 2)
}

pub fn external_antenna(flags: u32) -> bool
    ensures { result ≡ external_antenna flags }
{
    wire::flag(flags, 31)
}
