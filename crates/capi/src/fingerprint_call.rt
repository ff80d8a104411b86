//! `x509check_fingerprint`.

ghost use Rattle.std.specs.Prelude.{◌≡◌};
ghost use Rattle.path_verifiers.specs.Fingerprint.{fingerprint_of};

/// Writes the fingerprint of four texts, as `path_verifiers::fingerprint` says.
#[unsafe(no_mangle)]
pub extern "C" fn x509check_fingerprint(
    algorithm: &[u8],
    key_info: &[u8],
    message: &[u8],
    signature: &[u8],
    print: &mut [u8; 32],
)
    ensures { print.new ≡ fingerprint_of algorithm.now key_info.now message.now signature.now }
{
    *print = path_verifiers::fingerprint(algorithm, key_info, message, signature);
}
