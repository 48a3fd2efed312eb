// The interface's number.
ghost use Rattle.std.specs.Prelude.{◌≡◌};
ghost use Rattle.hokrund.specs.Version.{interface_version};

use hokrund::version;

#[unsafe(no_mangle)]
pub extern "C" fn hokrund_version() -> u32
    ensures { result ≡ interface_version }
{
    version::hokrund_version()
}
