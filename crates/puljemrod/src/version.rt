// The version of the library. The file VERSION at the top of the repository has it as text.
ghost use Rattle.std.specs.Prelude.{◌≡◌};

/// The major number * 1,000,000 + the minor * 1,000 + the patch.
const VERSION: u32 = 2_000_000;

#[unsafe(no_mangle)]
pub extern "C" fn puljemrod_version() -> u32
    ensures { result ≡ VERSION }
{
    VERSION
}
