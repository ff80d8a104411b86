//! Sets of policies.

ghost use Rattle.std.specs.Prelude.{◌≡◌, ◌||◌, ◌&&◌, ℕ, List, not, true, false, IfOk, OnOk};
ghost use Rattle.std.specs.Str.{bytes_eq};
ghost use Rattle.path_policies.specs.Lists.{is_among, AreAscending};
ghost use Rattle.path_policies.specs.Sets.{has};

use asn::Oid;
use std::alloc::{AllocError, Global};
use std::collections::BTreeSet;

/// A set of policies. Each call takes time that is logarithmic in its size.
#[derive(Drop)]
pub(crate) struct PolicySet<'a> {
    policies: BTreeSet<&'a [u8]>,
}

impl<'a> PolicySet<'a> {
    pub(crate) fn new(alloc: Global) -> PolicySet<'a>
        ensures { (policy : List ℕ) → has result policy ≡ false }
    {
        PolicySet {
            policies: BTreeSet::new(alloc),
        }
    }

    pub(crate) fn is_empty(&self) -> bool
        ensures none { result ≡ true → ((policy : List ℕ) → has self.now policy ≡ false) }
        ensures some { result ≡ false → ((policy : List ℕ) × (has self.now policy ≡ true)) }
    {
        self.policies.is_empty()
    }

    pub(crate) fn contains(&self, policy: &[u8]) -> bool
        ensures { result ≡ has self.now policy.now }
    {
        self.policies.contains(policy)
    }

    pub(crate) fn insert(&mut self, policy: &'a [u8]) -> Result<(), AllocError>
        ensures { OnOk result ((other : List ℕ) → has self.new other
            ≡ (bytes_eq policy.now other || has self.old other)) }
    {
        self.policies.insert(policy)?;
        Ok(())
    }

    pub(crate) fn remove(&mut self, policy: &[u8])
        ensures { (other : List ℕ) → has self.new other ≡ (not (bytes_eq policy.now other)
            && has self.old other) }
    {
        self.policies.remove(policy);
    }

    /// The policies, in ascending order of their octets.
    pub(crate) fn list(&self, alloc: Global) -> Result<Vec<Oid<'a>>, AllocError>
        ensures members { IfOk result (λ list. (policy : List ℕ) → is_among list.items policy
            ≡ has self.now policy) }
        ensures ascending { IfOk result (λ list. AreAscending list.items) }
    {
        let mut list = Vec::new(alloc);
        for policy in &self.policies {
            list.push(Oid::new(policy))?;
        }
        Ok(list)
    }
}
