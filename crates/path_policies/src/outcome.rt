//! What the processing of policies answers (RFC 5280, 6.1.5 (g) and 6.1.6).

ghost use Rattle.std.specs.Prelude.{◌≡◌, ◌&&◌, ◌||◌, ◌<◌, ℕ, List, length, IfOk, OnOk, if◌then◌else◌};
ghost use Rattle.std.specs.Str.{bytes_eq};
ghost use Rattle.path_policies.specs.Lists.{is_among, is_lasting, is_picked};
ghost use Rattle.path_policies.specs.Query.{any_policy};
ghost use Rattle.path_policies.specs.Seen.{seen_policy_certificate, seen_query, inhibitions_in};
ghost use Rattle.path_policies.specs.Sets.{has, lasts};
ghost use Rattle.path_policies.specs.Steps.{goes_on, inhibitions_behind, named_above, required_at_end};
ghost use Rattle.path_policies.specs.Walk.{AreFirsts};

use crate::inhibitions::Inhibitions;
use crate::lasting::Lasting;
use crate::lists::is_among;
use crate::policy::ANY_POLICY;
use crate::policy_set::PolicySet;
use crate::query::{PolicyCertificate, PolicyQuery};
use asn::Oid;
use std::alloc::{AllocError, Global};

/// Adds those of the policies that go on.
fn insert_lasting<'c>(
    policies: &mut PolicySet<'c>,
    first: &[&'c [u8]],
    lasting: &Lasting<'c>,
) -> Result<(), AllocError>
    ensures { OnOk result ((policy : List ℕ) →
        has policies.new policy ≡ (is_lasting first.now (lasts lasting.now) policy
        || has policies.old policy)) }
{
    for policy in first {
        if lasting.lasts(policy) {
            policies.insert(policy)?;
        }
    }
    Ok(())
}

/// Goes from the policies expected below a certificate to those that it has; the mappings of the last one do not count.
fn pass_mappings<'c>(
    alloc: Global,
    certificate: &PolicyCertificate<'c>,
    inhibited: bool,
    is_last: bool,
    lasting: &mut Lasting<'c>,
) -> Result<(), AllocError>
    ensures { OnOk result ((policy : List ℕ) → lasts lasting.new policy
        ≡ (if is_last then lasts lasting.old policy else goes_on (seen_policy_certificate
        certificate.now) inhibited (lasts lasting.old) policy)) }
{
    if is_last {
        return Ok(());
    }
    lasting.go_on(alloc, certificate, inhibited)?;
    Ok(())
}

/// The policies right below anyPolicy that have one of the last certificate below them.
fn first_named<'c>(
    alloc: Global,
    query: &PolicyQuery<'_, 'c>,
    each: &[Inhibitions],
    firsts: &[Vec<&'c [u8]>],
) -> Result<PolicySet<'c>, AllocError>
    requires count { length each.now ≡ length query.now.certificates.now }
    requires each { (i : ℕ) → i < length query.now.certificates.now →
        inhibitions_in each.now i ≡ inhibitions_behind (seen_query query.now) i }
    requires firsts { AreFirsts (seen_query query.now) (length query.now.certificates.now)
        firsts.now }
    ensures { IfOk result (λ named. (policy : List ℕ) →
        has named policy ≡ named_above (seen_query query.now) (length query.now.certificates.now)
        policy) }
{
    let certificates = query.certificates;
    let mut named = PolicySet::new(alloc);
    let mut lasting = Lasting::all(alloc);
    for above in 0..certificates.len() {
        let index = certificates.len() - above - 1;
        let certificate = &certificates[index];
        let inhibitions = each[index];
        let inhibited = inhibitions.mapping_inhibited;
        pass_mappings(alloc, certificate, inhibited, above == 0, &mut lasting)?;
        insert_lasting(&mut named, firsts[index].as_slice(), &lasting)?;
        lasting.go_up(alloc, certificate, inhibitions.allows_any)?;
    }
    Ok(named)
}

/// The policies under which the authorities have issued: those, and anyPolicy if it is valid at the end.
pub(crate) fn authority_policies<'c>(
    alloc: Global,
    query: &PolicyQuery<'_, 'c>,
    each: &[Inhibitions],
    firsts: &[Vec<&'c [u8]>],
    valid: &PolicySet<'c>,
) -> Result<PolicySet<'c>, AllocError>
    requires count { length each.now ≡ length query.now.certificates.now }
    requires each { (i : ℕ) → i < length query.now.certificates.now →
        inhibitions_in each.now i ≡ inhibitions_behind (seen_query query.now) i }
    requires firsts { AreFirsts (seen_query query.now) (length query.now.certificates.now)
        firsts.now }
    ensures { IfOk result (λ policies. (policy : List ℕ) → has policies policy
        ≡ ((bytes_eq any_policy policy && has valid.now any_policy)
        || named_above (seen_query query.now) (length query.now.certificates.now) policy)) }
{
    let mut policies = first_named(alloc, query, each, firsts)?;
    if valid.contains(ANY_POLICY) {
        policies.insert(ANY_POLICY)?;
    }
    Ok(policies)
}

/// Adds those of the user's policies that are among the authorities', or each if anyPolicy is.
fn insert_user_policies<'c>(
    policies: &mut PolicySet<'c>,
    asked: &[Oid<'c>],
    authority: &PolicySet<'c>,
    all: bool,
) -> Result<(), AllocError>
    ensures { OnOk result ((policy : List ℕ) → has policies.new policy
        ≡ (is_picked asked.now (λ one. has authority.now one || all) policy
        || has policies.old policy)) }
{
    for policy in asked {
        if authority.contains(policy.contents()) || all {
            policies.insert(policy.contents())?;
        }
    }
    Ok(())
}

/// The policies of the user's that are valid at the end.
pub(crate) fn user_policies<'c>(
    alloc: Global,
    asked: &[Oid<'c>],
    authority: PolicySet<'c>,
) -> Result<PolicySet<'c>, AllocError>
    ensures { IfOk result (λ user. (policy : List ℕ) → has user policy
        ≡ (if is_among asked.now any_policy then has authority.entry policy
        else is_picked asked.now (λ one. has authority.entry one
        || has authority.entry any_policy) policy)) }
{
    if is_among(asked, ANY_POLICY) {
        return Ok(authority);
    }
    let mut policies = PolicySet::new(alloc);
    let all = authority.contains(ANY_POLICY);
    insert_user_policies(&mut policies, asked, &authority, all)?;
    Ok(policies)
}

/// Whether a policy is required at the end (RFC 5280, 6.1.5 (a) and (b)).
pub(crate) fn is_required_at_end(query: &PolicyQuery<'_, '_>, each: &[Inhibitions]) -> bool
    requires count { length each.now ≡ length query.now.certificates.now }
    requires each { (i : ℕ) → i < length query.now.certificates.now →
        inhibitions_in each.now i ≡ inhibitions_behind (seen_query query.now) i }
    ensures { result ≡ required_at_end (seen_query query.now) }
{
    match each.last() {
        None => query.require_explicit_policy,
        Some(last) => last.required_behind,
    }
}
