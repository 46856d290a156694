//! The exported function that tells the version.
ghost use Rattle.std.specs.Prelude.{◌≡◌};

// Ten thousand times the major number, a hundred times the minor one, and the patch: 1.3.0.
const VERSION: u32 = 10_300;

/// Tells the version of the library, as VDPM_VERSION does that of the header.
#[unsafe(no_mangle)]
pub extern "C" fn vdpm_version() -> u32
    ensures { result ≡ 10300 }
{
    VERSION
}
