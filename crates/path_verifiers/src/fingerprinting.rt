//! Fingerprints of what a verifier is asked.

ghost use Rattle.std.specs.Prelude.{◌≡◌};
ghost use Rattle.path_verifiers.specs.Fingerprint.{framed, fingerprint_of, HashesMore};
ghost use Rattle.path_verifiers.specs.FramingLaws.{JudgementsAreDistinct};

use sha2::{Digest, Sha256};

/// Adds a text behind its length in 8 octets, the highest first.
fn add_framed(hasher: &mut Sha256, text: &[u8])
    ensures { HashesMore hasher.old hasher.new (framed text.now) }
{
    hasher.update((text.len() as u64).to_be_bytes());
    hasher.update(text);
}

/// The SHA-256 of four texts, each behind its length in 8 octets, the highest first: the whole DER of the algorithm identifier
/// and of the subjectPublicKeyInfo, the message that was signed, and the octets of the signature. No memory is taken.
#[tactic(auto, unfolding(crate::specs::Fingerprint::fingerprint_of))]
pub fn fingerprint(algorithm: &[u8], key_info: &[u8], message: &[u8], signature: &[u8]) -> [u8; 32]
    ensures { result ≡ fingerprint_of algorithm.now key_info.now message.now signature.now }
{
    let mut hasher = Sha256::new();
    add_framed(&mut hasher, algorithm);
    add_framed(&mut hasher, key_info);
    add_framed(&mut hasher, message);
    add_framed(&mut hasher, signature);
    hasher.finalize()
}

/// The octets that are hashed tell the four texts apart, so that only SHA-256 could give two questions one fingerprint.
pub fn framing_laws()
    ensures { JudgementsAreDistinct }
{}
