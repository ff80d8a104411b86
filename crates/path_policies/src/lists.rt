//! Policies picked from lists.

ghost use Rattle.std.specs.Prelude.{◌≡◌, ◌&&◌, ◌||◌, ℕ, List, not, IfOk, OnOk};
ghost use Rattle.std.specs.Str.{bytes_eq};
ghost use Rattle.asn.specs.Oid.{oid_contents};
ghost use Rattle.path_policies.specs.Lists.{is_among, is_picked, is_picked_issuer, is_named_in, is_listed, is_any_mapped_by, is_mapped_by, is_subject_of};
ghost use Rattle.path_policies.specs.Sets.{has};

use crate::policy::is_any;
use crate::policy_set::PolicySet;
use asn::Oid;
use cert_policies::PolicyMapping;
use std::alloc::{AllocError, Global};

/// Whether one of the policies is this one.
pub(crate) fn is_among(policies: &[Oid<'_>], policy: &[u8]) -> bool
    ensures { result ≡ is_among policies.now policy.now }
{
    policies.iter().any(|stated| stated.contents() == policy)
}

/// Whether anyPolicy is mapped, or mapped to.
pub(crate) fn is_any_mapped(mappings: &[PolicyMapping<'_>]) -> bool
    ensures { result ≡ is_any_mapped_by mappings.now }
{
    mappings.iter().any(|mapping| {
        is_any(mapping.issuer_domain_policy.contents())
            || is_any(mapping.subject_domain_policy.contents())
    })
}

/// The policies, without anyPolicy, that are in the set, or that are not.
pub(crate) fn named_in<'c>(
    alloc: Global,
    policies: &[Oid<'c>],
    set: &PolicySet<'c>,
    wanted: bool,
) -> Result<Vec<&'c [u8]>, AllocError>
    ensures { IfOk result (λ picked. (policy : List ℕ) →
        is_listed picked.items policy
        ≡ is_picked policies.now (is_named_in wanted (has set.now)) policy) }
{
    let mut picked = Vec::new(alloc);
    for policy in policies {
        let contents = policy.contents();
        if !is_any(contents) && set.contains(contents) == wanted {
            picked.push(contents)?;
        }
    }
    Ok(picked)
}

/// The policies that are mapped and not in the set.
pub(crate) fn mapped_outside<'c>(
    alloc: Global,
    mappings: &[PolicyMapping<'c>],
    set: &PolicySet<'c>,
) -> Result<Vec<&'c [u8]>, AllocError>
    ensures { IfOk result (λ picked. (policy : List ℕ) →
        is_listed picked.items policy ≡ is_picked_issuer mappings.now
        (λ issuer. not (has set.now issuer)) policy) }
{
    let mut picked = Vec::new(alloc);
    for mapping in mappings {
        let issuer = mapping.issuer_domain_policy.contents();
        if !set.contains(issuer) {
            picked.push(issuer)?;
        }
    }
    Ok(picked)
}

/// The policies to which those in the set are mapped, or all are.
pub(crate) fn subjects_of<'c>(
    alloc: Global,
    mappings: &[PolicyMapping<'c>],
    set: &PolicySet<'c>,
    all: bool,
) -> Result<Vec<&'c [u8]>, AllocError>
    ensures { IfOk result (λ picked. (policy : List ℕ) →
        is_listed picked.items policy ≡ is_subject_of mappings.now
        (λ issuer. has set.now issuer || all) policy) }
{
    let mut picked = Vec::new(alloc);
    for mapping in mappings {
        if all || set.contains(mapping.issuer_domain_policy.contents()) {
            picked.push(mapping.subject_domain_policy.contents())?;
        }
    }
    Ok(picked)
}

/// Removes the policies that are mapped.
pub(crate) fn remove_mapped(set: &mut PolicySet<'_>, mappings: &[PolicyMapping<'_>])
    ensures { (policy : List ℕ) → has set.new policy ≡ (not (is_mapped_by mappings.now policy)
        && has set.old policy) }
{
    for mapping in mappings {
        set.remove(mapping.issuer_domain_policy.contents());
    }
}

/// Adds the policies.
pub(crate) fn insert_all<'c>(
    set: &mut PolicySet<'c>,
    policies: &[&'c [u8]],
) -> Result<(), AllocError>
    ensures { OnOk result ((policy : List ℕ) → has set.new policy
        ≡ (is_listed policies.now policy || has set.old policy)) }
{
    for policy in policies {
        set.insert(policy)?;
    }
    Ok(())
}
