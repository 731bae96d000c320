//! The version of the library.

ghost use Rattle.std.specs.Prelude.{◌≡◌};

/// The version 1.0.0.
const VERSION: u32 = 1_000_000;

/// Returns the version of the library: its first number times 1,000,000, its second number times
/// 1,000, and its third number, added.
#[unsafe(no_mangle)]
pub extern "C" fn tufcheck_version() -> u32
    ensures value { result ≡ 1_000_000 }
{
    VERSION
}
