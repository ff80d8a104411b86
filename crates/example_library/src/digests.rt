//! Who judges signatures in this example.

ghost use Rattle.std.specs.Prelude.{◌≡◌};
ghost use Rattle.std.specs.Str.{bytes_eq};
ghost use Rattle.example_library.specs.Signature.{signature_of};

use sha2::{Digest, Sha256};
use x509::Verifier;

/// Believes a signature that is the SHA-256 of the key and the message. Everyone can make one: a program that is in earnest asks a
/// library for RSA, ECDSA or Ed25519 here.
#[derive(Clone, Copy)]
pub struct Digests;

impl Verifier for Digests {
    ghost accepts = { λ _ _ key_info message signature.
        bytes_eq signature (signature_of key_info message) };

    #[tactic(auto, unfolding(crate::specs::Signature::signature_of))]
    fn judge(&self, _algorithm: &[u8], key_info: &[u8], message: &[u8], signature: &[u8]) -> bool {
        let mut hasher = Sha256::new();
        hasher.update(key_info);
        hasher.update(message);
        signature == hasher.finalize().as_slice()
    }
}
