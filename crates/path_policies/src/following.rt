//! Which policies a certificate has, of those expected above it (RFC 5280, 6.1.3 (d) and (e)), and which are expected below it (6.1.4 (b)).

ghost use Rattle.std.specs.Prelude.{◌≡◌, ◌&&◌, ◌||◌, ℕ, List, not, true, false, IfOk, OnOk, if◌then◌else◌};
ghost use Rattle.path_policies.specs.Lists.{is_among, is_listed, is_picked, is_picked_issuer, is_named_in, is_subject_of, is_mapped_by};
ghost use Rattle.path_policies.specs.Query.{any_policy};
ghost use Rattle.path_policies.specs.Seen.{seen_policy_certificate};
ghost use Rattle.path_policies.specs.Sets.{has};
ghost use Rattle.path_policies.specs.Steps.{states, followed, is_first, mapped, is_first_mapped};

use crate::lists::{insert_all, mapped_outside, named_in, remove_mapped, subjects_of};
use crate::policy::ANY_POLICY;
use crate::policy_set::PolicySet;
use crate::query::PolicyCertificate;
use asn::Oid;
use cert_policies::PolicyMapping;
use std::alloc::{AllocError, Global};

/// The policies that the certificate states.
pub(crate) fn stated<'p, 'c>(certificate: &'p PolicyCertificate<'c>) -> &'p [Oid<'c>]
    ensures { (policy : List ℕ) → states (seen_policy_certificate certificate.now) policy
        ≡ is_among result.now policy }
{
    match &certificate.extensions.policies {
        None => &[],
        Some(policies) => policies.as_slice(),
    }
}

/// The policies that are stated and not expected, if anyPolicy is: anyPolicy is their parent.
fn first_stated<'c>(
    alloc: Global,
    stated: &[Oid<'c>],
    expected: &PolicySet<'c>,
) -> Result<Vec<&'c [u8]>, AllocError>
    ensures { IfOk result (λ first. (policy : List ℕ) →
        is_listed first.items policy
        ≡ (is_picked stated.now (is_named_in false (has expected.now)) policy
        && has expected.now any_policy)) }
{
    if expected.contains(ANY_POLICY) {
        named_in(alloc, stated, expected, false)
    } else {
        Ok(Vec::new(alloc))
    }
}

/// Leaves of the policies those that are stated, if others do not count.
fn keep_stated<'c>(
    alloc: Global,
    stated: &[Oid<'c>],
    allows_any: bool,
    policies: &mut PolicySet<'c>,
) -> Result<(), AllocError>
    ensures { OnOk result ((policy : List ℕ) → has policies.new policy
        ≡ (if allows_any then has policies.old policy else is_picked stated.now (is_named_in true
        (has policies.old)) policy)) }
{
    if allows_any {
        return Ok(());
    }
    let kept = named_in(alloc, stated, policies, true)?;
    *policies = PolicySet::new(alloc);
    insert_all(policies, kept.as_slice())
}

/// Turns the policies expected above a certificate into those that it has. Answers those of them whose parent is anyPolicy, as no policy
/// expects them.
pub(crate) fn follow<'c>(
    alloc: Global,
    certificate: &PolicyCertificate<'c>,
    allows_any: bool,
    policies: &mut PolicySet<'c>,
) -> Result<Vec<&'c [u8]>, AllocError>
    ensures valid { OnOk result ((policy : List ℕ) →
        has policies.new policy
        ≡ followed (seen_policy_certificate certificate.now) allows_any (has policies.old) policy) }
    ensures first { IfOk result (λ first. (policy : List ℕ) →
        is_listed first.items policy
        ≡ is_first (seen_policy_certificate certificate.now) (has policies.old) policy) }
{
    let stated = stated(certificate);
    let first = first_stated(alloc, stated, policies)?;
    keep_stated(alloc, stated, allows_any, policies)?;
    insert_all(policies, first.as_slice())?;
    Ok(first)
}

/// The policies that are mapped and that the certificate has not, if it has anyPolicy: anyPolicy is their parent.
fn first_mapped<'c>(
    alloc: Global,
    mappings: &[PolicyMapping<'c>],
    valid: &PolicySet<'c>,
) -> Result<Vec<&'c [u8]>, AllocError>
    ensures { IfOk result (λ first. (policy : List ℕ) → is_listed first.items policy
        ≡ (is_picked_issuer mappings.now (λ issuer. not (has valid.now issuer)) policy
        && has valid.now any_policy)) }
{
    if valid.contains(ANY_POLICY) {
        mapped_outside(alloc, mappings, valid)
    } else {
        Ok(Vec::new(alloc))
    }
}

/// Turns the policies that a certificate has into those expected below it, where mapping is not inhibited.
fn map_valid<'c>(
    alloc: Global,
    mappings: &[PolicyMapping<'c>],
    policies: &mut PolicySet<'c>,
) -> Result<(), AllocError>
    ensures { OnOk result ((policy : List ℕ) → has policies.new policy
        ≡ (is_subject_of mappings.now (λ issuer. has policies.old issuer
        || has policies.old any_policy) policy
        || (not (is_mapped_by mappings.now policy) && has policies.old policy))) }
{
    let any = policies.contains(ANY_POLICY);
    let subjects = subjects_of(alloc, mappings, policies, any)?;
    remove_mapped(policies, mappings);
    insert_all(policies, subjects.as_slice())
}

/// Turns the policies that a certificate has into those expected below it. Answers the mapped ones whose parent is anyPolicy.
pub(crate) fn map<'c>(
    alloc: Global,
    certificate: &PolicyCertificate<'c>,
    inhibited: bool,
    policies: &mut PolicySet<'c>,
) -> Result<Vec<&'c [u8]>, AllocError>
    ensures expected { OnOk result ((policy : List ℕ) →
        has policies.new policy
        ≡ mapped (seen_policy_certificate certificate.now) inhibited (has policies.old) policy) }
    ensures first { IfOk result (λ first. (policy : List ℕ) →
        is_listed first.items policy
        ≡ is_first_mapped (seen_policy_certificate certificate.now) inhibited (has policies.old)
        policy) }
{
    let mappings = certificate.extensions.mappings.as_slice();
    if inhibited {
        remove_mapped(policies, mappings);
        return Ok(Vec::new(alloc));
    }
    let first = first_mapped(alloc, mappings, policies)?;
    map_valid(alloc, mappings, policies)?;
    Ok(first)
}
