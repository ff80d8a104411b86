//! `x509check_sha256`.

ghost use Rattle.std.specs.Prelude.{◌≡◌};
ghost use Rattle.sha2.specs.Sha256.{sha256};

use sha2::{Digest, Sha256};

/// Writes the SHA-256 of the octets (FIPS 180-4). Of a certificate it is what others call its fingerprint.
#[unsafe(no_mangle)]
pub extern "C" fn x509check_sha256(octets: &[u8], digest: &mut [u8; 32])
    ensures { digest.new ≡ sha256 octets.now }
{
    *digest = Sha256::digest(octets);
}
