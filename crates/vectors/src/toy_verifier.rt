//! A signature that needs no secret, for tests.

ghost use Rattle.std.specs.Prelude.{◌≡◌};
ghost use Rattle.std.specs.Str.{bytes_eq};
ghost use Rattle.vectors.specs.ToySignature.{toy_signature_of};

use path_verifiers::Verifier;
use sha2::{Digest, Sha256};

/// The SHA-256 of a subjectPublicKeyInfo, whole, and of the message behind it.
#[tactic(auto, unfolding(crate::specs::ToySignature::toy_signature_of))]
pub fn toy_signature(key_info: &[u8], message: &[u8]) -> [u8; 32]
    ensures { result ≡ toy_signature_of key_info.now message.now }
{
    let mut hasher = Sha256::new();
    hasher.update(key_info);
    hasher.update(message);
    hasher.finalize()
}

/// Accepts toy signatures, whatever the algorithm. Everyone can make them: it is for tests alone.
#[derive(Clone, Copy)]
pub struct ToyVerifier;

impl Verifier for ToyVerifier {
    ghost accepts = { λ _ _ key_info message signature.
        bytes_eq signature (toy_signature_of key_info message) };

    fn judge(&self, _algorithm: &[u8], key_info: &[u8], message: &[u8], signature: &[u8]) -> bool {
        signature == toy_signature(key_info, message).as_slice()
    }
}
