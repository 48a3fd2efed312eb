// The interface's number, by the number itself.
ghost use Rattle.std.specs.Prelude.{◌≡◌};

use hokrund::version;

pub fn interface_version() -> u32
    ensures { result ≡ 6 }
{
    version::hokrund_version()
}
