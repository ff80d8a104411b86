//! The fingerprints that a session believes.
ghost use Rattle.std.specs.Prelude.{◌≡◌, ◌∷◌, List, ℕ, OnErr, OnOk};
ghost use Rattle.path_verifiers.specs.ListVerifier.{Believes};
ghost use Rattle.cli_steps.specs.Believed.{BelievesJust, is_believed};

use path_verifiers::{ListVerifier, Verifier, fingerprint};
use std::alloc::{AllocError, Global};
use std::collections::BTreeSet;

/// Fingerprints of good signatures: those of a list, and those that came since.
#[derive(Drop)]
pub struct Believed {
    pub(crate) listed: ListVerifier,
    pub(crate) told: BTreeSet<[u8; 32]>,
}

impl Believed {
    /// What the verifier believes, and nothing else.
    pub fn new(alloc: Global, listed: ListVerifier) -> Believed
        ensures believes { (prints : List (List ℕ)) → Believes listed prints
            → BelievesJust result prints }
        ensures listed { result.listed ≡ listed }
    {
        Believed {
            listed,
            told: BTreeSet::new(alloc),
        }
    }

    /// Whether the fingerprint is believed. Time is logarithmic in their number.
    pub fn believes(&self, print: &[u8; 32]) -> bool
        ensures { result ≡ is_believed self.now print.now }
    {
        self.listed.lists(print) || self.told.contains(print)
    }

    /// Believes one fingerprint more. Time is logarithmic in the number of those that came so.
    pub fn believe(&mut self, print: [u8; 32]) -> Result<(), AllocError>
        ensures more { OnOk result ((prints : List (List ℕ)) → BelievesJust self.old prints
            → BelievesJust self.new (print ∷ prints)) }
        ensures listed { self.new.listed ≡ self.old.listed }
        ensures same { OnErr result ((prints : List (List ℕ)) → BelievesJust self.old prints
            → BelievesJust self.new prints) }
    {
        let _ = self.told.insert(print)?;
        Ok(())
    }

    /// Forgets what came since: what is believed is the list again.
    pub fn forget(&mut self)
        ensures less { (prints : List (List ℕ)) → Believes self.old.listed prints
            → BelievesJust self.new prints }
        ensures listed { self.new.listed ≡ self.old.listed }
    {
        self.told.clear();
    }
}

/// Accepts a signature if its fingerprint is believed.
impl Verifier for Believed {
    ghost use Rattle.cli_steps.specs.Believed.{accepted_by};

    ghost accepts = { accepted_by };

    fn judge(&self, algorithm: &[u8], key_info: &[u8], message: &[u8], signature: &[u8]) -> bool {
        self.believes(&fingerprint(algorithm, key_info, message, signature))
    }
}
