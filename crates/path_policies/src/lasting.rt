//! Which policies go on to the end of a path, told from the end upward.

ghost use Rattle.std.specs.Prelude.{◌≡◌, ◌&&◌, ◌||◌, ℕ, List, true, false, IfOk, OnOk, if◌then◌else◌};
ghost use Rattle.std.specs.Str.{bytes_eq};
ghost use Rattle.path_policies.specs.Lists.{is_picked, is_named_in, is_issuer_of, is_listed, is_mapped_by};
ghost use Rattle.path_policies.specs.Seen.{seen_policy_certificate};
ghost use Rattle.path_policies.specs.Sets.{has, lasts};
ghost use Rattle.path_policies.specs.Steps.{goes_on, goes_down};

use crate::following::stated;
use crate::lists::named_in;
use crate::policy_set::PolicySet;
use crate::query::PolicyCertificate;
use asn::Oid;
use cert_policies::PolicyMapping;
use std::alloc::{AllocError, Global};

/// The policies that go on to the end: all others than those that are listed do so, or none.
#[derive(Drop)]
pub(crate) struct Lasting<'c> {
    others: bool,
    exceptions: PolicySet<'c>,
}

impl<'c> Lasting<'c> {
    /// All go on.
    pub(crate) fn all(alloc: Global) -> Lasting<'c>
        ensures { (policy : List ℕ) → lasts result policy ≡ true }
    {
        Lasting {
            others: true,
            exceptions: PolicySet::new(alloc),
        }
    }

    pub(crate) fn lasts(&self, policy: &[u8]) -> bool
        ensures { result ≡ lasts self.now policy.now }
    {
        self.exceptions.contains(policy) != self.others
    }

    /// Settles whether a policy goes on.
    fn set(&mut self, policy: &'c [u8], lasting: bool) -> Result<(), AllocError>
        ensures { OnOk result ((other : List ℕ) →
            lasts self.new other
            ≡ (if bytes_eq policy.now other then lasting else lasts self.old other)) }
    {
        if lasting == self.others {
            self.exceptions.remove(policy);
            return Ok(());
        }
        self.exceptions.insert(policy)
    }

    /// The policies that are mapped to one that goes on.
    fn issuers(
        &self,
        alloc: Global,
        mappings: &[PolicyMapping<'c>],
    ) -> Result<Vec<&'c [u8]>, AllocError>
        ensures { IfOk result (λ picked. (policy : List ℕ) →
            is_listed picked.items policy ≡ is_issuer_of mappings.now (lasts self.now) policy) }
    {
        let mut picked = Vec::new(alloc);
        for mapping in mappings {
            if self.lasts(mapping.subject_domain_policy.contents()) {
                picked.push(mapping.issuer_domain_policy.contents())?;
            }
        }
        Ok(picked)
    }

    /// Ends the policies that are mapped.
    fn end_mapped(&mut self, mappings: &[PolicyMapping<'c>]) -> Result<(), AllocError>
        ensures { OnOk result ((policy : List ℕ) →
            lasts self.new policy
            ≡ (if is_mapped_by mappings.now policy then false else lasts self.old policy)) }
    {
        for mapping in mappings {
            self.set(mapping.issuer_domain_policy.contents(), false)?;
        }
        Ok(())
    }

    /// Lets policies go on.
    fn extend(&mut self, policies: &[&'c [u8]]) -> Result<(), AllocError>
        ensures { OnOk result ((policy : List ℕ) →
            lasts self.new policy ≡ (is_listed policies.now policy || lasts self.old policy)) }
    {
        for policy in policies {
            self.set(policy, true)?;
        }
        Ok(())
    }

    /// Goes from the policies expected below a certificate to those that it has.
    pub(crate) fn go_on(
        &mut self,
        alloc: Global,
        certificate: &PolicyCertificate<'c>,
        inhibited: bool,
    ) -> Result<(), AllocError>
        ensures { OnOk result ((policy : List ℕ) →
            lasts self.new policy
            ≡ goes_on (seen_policy_certificate certificate.now) inhibited (lasts self.old) policy) }
    {
        let mappings = certificate.extensions.mappings.as_slice();
        if inhibited {
            self.end_mapped(mappings)?;
            return Ok(());
        }
        let issuers = self.issuers(alloc, mappings)?;
        self.end_mapped(mappings)?;
        self.extend(issuers.as_slice())?;
        Ok(())
    }

    /// Goes from the policies that a certificate has to those expected above it.
    pub(crate) fn go_up(
        &mut self,
        alloc: Global,
        certificate: &PolicyCertificate<'c>,
        allows_any: bool,
    ) -> Result<(), AllocError>
        ensures { OnOk result ((policy : List ℕ) →
            lasts self.new policy
            ≡ goes_down (seen_policy_certificate certificate.now) allows_any (lasts self.old)
            policy) }
    {
        if allows_any {
            return Ok(());
        }
        let named = named_in(alloc, stated(certificate), &self.exceptions, !self.others)?;
        self.others = false;
        self.exceptions = PolicySet::new(alloc);
        self.extend(named.as_slice())?;
        Ok(())
    }
}
