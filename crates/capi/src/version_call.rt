//! `x509check_version`.

ghost use Rattle.std.specs.Prelude.{◌≡◌};

/// The version of the library, 1.2.0: 10000 times the major number, plus 100 times the minor one, plus the patch.
#[unsafe(no_mangle)]
pub extern "C" fn x509check_version() -> u32
    ensures { result ≡ 10200 }
{
    10200
}
