//! A verifier that believes a list of fingerprints.

ghost use Rattle.std.specs.Prelude.{◌≡◌};
ghost use Rattle.std.specs.Ordering.{nat_cmp};
ghost use Rattle.std.specs.Cmp.Lexicographic.{slice_cmp};
ghost use Rattle.std.specs.List.Sorted.{IsSorted};
ghost use Rattle.path_verifiers.specs.Fingerprint.{fingerprint_of};

use crate::fingerprinting::fingerprint;
use crate::verifier::Verifier;

/// Accepts what was judged elsewhere: a signature is accepted exactly if the fingerprint of the question is in the list.
#[derive(Drop)]
pub struct ListVerifier {
    prints: Vec<[u8; 32]>,
    pub ghost sorted: { IsSorted (slice_cmp nat_cmp) prints.items },
}

impl ListVerifier {
    ghost use Rattle.path_verifiers.specs.ListVerifier.{Believes, is_listed};

    /// The verifier that believes these fingerprints. It sorts them in place, in n log n comparisons, and takes no memory.
    pub fn new(prints: Vec<[u8; 32]>) -> ListVerifier
        ensures { Believes result prints.items }
    {
        let mut prints = prints;
        prints.sort_unstable();
        ListVerifier { prints }
    }

    /// Whether the fingerprint is in the list. It looks at log n of them.
    pub fn lists(&self, print: &[u8; 32]) -> bool
        ensures { result ≡ is_listed self.now print.now }
    {
        self.prints.binary_search(print).is_ok()
    }
}

impl Verifier for ListVerifier {
    ghost use Rattle.path_verifiers.specs.ListVerifier.{is_listed};

    ghost accepts = { λ verifier algorithm key_info message signature.
        is_listed verifier (fingerprint_of algorithm key_info message signature) };

    fn judge(&self, algorithm: &[u8], key_info: &[u8], message: &[u8], signature: &[u8]) -> bool {
        self.lists(&fingerprint(algorithm, key_info, message, signature))
    }
}
