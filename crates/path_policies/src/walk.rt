//! The certificates of a path, one after the other (RFC 5280, 6.1.3 (d) to (f), 6.1.4 (a) and (b)).

ghost use Rattle.std.specs.Prelude.{◌≡◌, ◌<◌, ℕ, length, true, false, IfOk};
ghost use Rattle.path_policies.specs.Seen.{seen_policy_certificate, seen_query, seen_inhibitions, inhibitions_in};
ghost use Rattle.path_policies.specs.Sets.{has};
ghost use Rattle.path_policies.specs.Steps.{inhibitions_behind};
ghost use Rattle.path_policies.specs.Walk.{HasPolicy, LacksPolicy, TakesStep, Walks};

use crate::following::{follow, map};
use crate::inhibitions::Inhibitions;
use crate::lists::is_any_mapped;
use crate::policy::ANY_POLICY;
use crate::policy_set::PolicySet;
use crate::query::{PolicyCertificate, PolicyQuery};
use crate::reason::PolicyReason;
use std::alloc::{AllocError, Global};

/// What a certificate does to the policies.
#[derive(Drop)]
pub(crate) enum Step<'c> {
    /// It is acceptable; these of its policies have anyPolicy as their parent.
    Passed(Vec<&'c [u8]>),
    Failed(PolicyReason),
}

/// What all certificates do.
#[derive(Drop)]
pub(crate) enum Walk<'c> {
    /// They are acceptable: of each the policies whose parent is anyPolicy, and the policies that are valid at the last one.
    Ended(Vec<Vec<&'c [u8]>>, PolicySet<'c>),
    /// This one is the first that is not.
    Failed(usize, PolicyReason),
}

/// Whether a policy is required, and none is valid.
pub(crate) fn lacks_policy(required: bool, policies: &PolicySet<'_>) -> bool
    ensures lacks { result ≡ true → LacksPolicy required (has policies.now) }
    ensures meets { result ≡ false → HasPolicy required (has policies.now) }
{
    required && policies.is_empty()
}

/// Takes one certificate, and turns the policies expected above it into those expected below it.
pub(crate) fn take_certificate<'c>(
    alloc: Global,
    certificate: &PolicyCertificate<'c>,
    inhibitions: Inhibitions,
    is_last: bool,
    policies: &mut PolicySet<'c>,
) -> Result<Step<'c>, AllocError>
    ensures { IfOk result (TakesStep (seen_policy_certificate certificate.now) (seen_inhibitions
        inhibitions) is_last
        (has policies.old) (has policies.new)) }
{
    let mut first = follow(alloc, certificate, inhibitions.allows_any, policies)?;
    if lacks_policy(inhibitions.policy_required, policies) {
        return Ok(Step::Failed(PolicyReason::NoValidPolicy));
    }
    if is_last {
        return Ok(Step::Passed(first));
    }
    if is_any_mapped(certificate.extensions.mappings.as_slice()) {
        return Ok(Step::Failed(PolicyReason::AnyPolicyMapped));
    }
    let mapped = map(alloc, certificate, inhibitions.mapping_inhibited, policies)?;
    first.extend_from_slice(mapped.as_slice())?;
    Ok(Step::Passed(first))
}

/// Takes the certificates one after the other, up to the first that is not acceptable.
pub(crate) fn walk_certificates<'c>(
    alloc: Global,
    query: &PolicyQuery<'_, 'c>,
    each: &[Inhibitions],
) -> Result<Walk<'c>, AllocError>
    requires count { length each.now ≡ length query.now.certificates.now }
    requires each { (i : ℕ) → i < length query.now.certificates.now →
        inhibitions_in each.now i ≡ inhibitions_behind (seen_query query.now) i }
    ensures { IfOk result (Walks (seen_query query.now)) }
{
    let certificates = query.certificates;
    let mut policies = PolicySet::new(alloc);
    policies.insert(ANY_POLICY)?;
    let mut firsts = Vec::new(alloc);
    for (index, certificate) in certificates.iter().enumerate() {
        let is_last = index + 1 == certificates.len();
        match take_certificate(alloc, certificate, each[index], is_last, &mut policies)? {
            Step::Failed(reason) => return Ok(Walk::Failed(index + 1, reason)),
            Step::Passed(first) => firsts.push(first)?,
        }
    }
    Ok(Walk::Ended(firsts, policies))
}
