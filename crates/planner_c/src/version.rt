//! The version of the library.

ghost use Rattle.std.specs.Prelude.{◌≡◌};

/// The version of the library, as `10000 * major + 100 * minor + patch`: `bobbinazure_version`.
#[unsafe(no_mangle)]
pub extern "C" fn bobbinazure_version() -> u32
    ensures { result ≡ 100 }
{
    100
}
