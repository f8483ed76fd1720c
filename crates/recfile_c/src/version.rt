// The version of the library, from C.
ghost use Rattle.std.specs.Prelude.{◌≡◌};
ghost use Rattle.recfile_c.specs.Version.{version_number};

/// Changes where a struct, a call or a status of the header becomes another one.
const MAJOR: u32 = 1;

/// Changes where the header gets a call, a status or a kind more.
const MINOR: u32 = 0;

/// The version of the library: 65,536 times its major number, and its minor one.
#[unsafe(no_mangle)]
pub extern "C" fn recfile_version() -> u32
    ensures { result ≡ version_number }
{
    65536 * MAJOR + MINOR
}
