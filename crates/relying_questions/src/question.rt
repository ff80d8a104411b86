//! Questions to a verifier.

ghost use Rattle.std.specs.Prelude.{◌≡◌};
ghost use Rattle.relying_questions.specs.Questions.{answer};
ghost use Rattle.relying_questions.specs.Seen.{judgement_print, seen_question};

use crate::part::TextPart;
use path_verifiers::{Verifier, fingerprint};

/// A question to a verifier: is the signature of the message accepted under the key, by the algorithm? `algorithm` and `key_info` are the
/// whole DER of the algorithm identifier and of the subjectPublicKeyInfo, `message` is what was signed, and `signature` the octets of the
/// signature.
#[derive(Clone, Copy, Debug, PartialEq, Eq)]
pub struct SignatureQuestion<'a> {
    pub algorithm: TextPart<'a>,
    pub key_info: TextPart<'a>,
    pub message: TextPart<'a>,
    pub signature: TextPart<'a>,
}

impl<'a> SignatureQuestion<'a> {
    /// The fingerprint of the question, which a `ListVerifier` looks for. No memory is taken.
    pub fn fingerprint(&self) -> [u8; 32]
        ensures { result ≡ judgement_print (seen_question self.now) }
    {
        let (algorithm, key_info) = (self.algorithm.octets, self.key_info.octets);
        let (message, signature) = (self.message.octets, self.signature.octets);
        fingerprint(algorithm, key_info, message, signature)
    }

    /// The verifier's answer.
    pub fn answer<V: Verifier>(&self, verifier: &V) -> bool
        ensures { result ≡ answer (V.accepts verifier.now) (seen_question self.now) }
    {
        verifier.judge(
            self.algorithm.octets,
            self.key_info.octets,
            self.message.octets,
            self.signature.octets,
        )
    }
}
