// The interface's number, so that a program can see whether its header and its archive are of one version.
ghost use Rattle.std.specs.Prelude.{◌≡◌};
ghost use Rattle.hokrund.specs.Version.{interface_version};

// Rises with include/hokrund.h's HOKRUND_VERSION, which says when.
pub const VERSION: u32 = 6;

pub fn hokrund_version() -> u32
    ensures { result ≡ interface_version }
{
    VERSION
}
