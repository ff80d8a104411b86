//! Who judges signatures.

ghost use Rattle.std.specs.Prelude.{◌≡◌};

/// A judge of signatures: a fixed relation of four texts.
///
/// What a verifier accepts is its own matter. All that the library knows is that two questions with the same texts get the same answer.
pub trait Verifier {
    ghost use Rattle.std.specs.Prelude.{ℕ, List, Bool};

    /// Whether the signature of the message under the key, by the algorithm, is accepted.
    ghost accepts: { Self → List ℕ → List ℕ → List ℕ → List ℕ → Bool };

    /// Whether the signature is accepted (RFC 5280, 6.1.3 (a) (1)). `algorithm` and `key_info` are the whole DER of the algorithm
    /// identifier and of the subjectPublicKeyInfo, `message` is what was signed, and `signature` the octets of the signature.
    fn judge(&self, algorithm: &[u8], key_info: &[u8], message: &[u8], signature: &[u8]) -> bool
        ensures { result ≡ accepts self.now algorithm.now key_info.now message.now signature.now };
}

/// A verifier that is borrowed judges as the one behind.
impl<V: Verifier> Verifier for &V {
    ghost accepts = { λ verifier. V.accepts verifier.now };

    fn judge(&self, algorithm: &[u8], key_info: &[u8], message: &[u8], signature: &[u8]) -> bool {
        (**self).judge(algorithm, key_info, message, signature)
    }
}
