//! The processing of the policies of a path (RFC 5280, 6.1).

ghost use Rattle.std.specs.Prelude.{◌≡◌, ◌<◌, ℕ, length, IfOk};
ghost use Rattle.path_policies.specs.Outcome.{IsPolicyOutcome, PolicyOutcomeIsOne};
ghost use Rattle.path_policies.specs.Seen.{seen_query, inhibitions_in};
ghost use Rattle.path_policies.specs.Steps.{inhibitions_behind};
ghost use Rattle.path_policies.specs.Walk.{HasWalked};

use crate::inhibitions::{Inhibitions, inhibitions_of};
use crate::outcome::{authority_policies, is_required_at_end, user_policies};
use crate::policy_set::PolicySet;
use crate::query::PolicyQuery;
use crate::reason::{PolicyOutcome, PolicyReason, PolicySets};
use crate::walk::{Walk, lacks_policy, walk_certificates};
use std::alloc::{AllocError, Global};

/// The outcome if all certificates have passed.
pub(crate) fn end<'c>(
    alloc: Global,
    query: &PolicyQuery<'_, 'c>,
    each: &[Inhibitions],
    firsts: &[Vec<&'c [u8]>],
    valid: &PolicySet<'c>,
) -> Result<PolicyOutcome<'c>, AllocError>
    requires count { length each.now ≡ length query.now.certificates.now }
    requires each { (i : ℕ) → i < length query.now.certificates.now →
        inhibitions_in each.now i ≡ inhibitions_behind (seen_query query.now) i }
    requires walked { HasWalked (seen_query query.now) (length query.now.certificates.now)
        firsts.now valid.now }
    ensures { IfOk result (IsPolicyOutcome (seen_query query.now)) }
{
    let authority = authority_policies(alloc, query, each, firsts, valid)?;
    let authority_constrained = authority.list(alloc)?;
    let user = user_policies(alloc, query.initial_policies, authority)?;
    let is_required = is_required_at_end(query, each);
    if lacks_policy(is_required, &user) {
        let number = query.certificates.len();
        return Ok(PolicyOutcome::Bad(number, PolicyReason::NoUserPolicy));
    }
    let user_constrained = user.list(alloc)?;
    Ok(PolicyOutcome::Good(PolicySets {
        authority_constrained,
        user_constrained,
    }))
}

/// Processes the policies of a path: the sets at the end, or the first certificate that is not acceptable, and why.
///
/// Time is n log n in the policies and mappings of all certificates together, and memory linear in them: policies are never combined.
/// Whether the certificates are signed, and whether the path is valid otherwise, is not looked at.
pub fn process_policies<'c>(
    alloc: Global,
    query: &PolicyQuery<'_, 'c>,
) -> Result<PolicyOutcome<'c>, AllocError>
    ensures { IfOk result (IsPolicyOutcome (seen_query query.now)) }
{
    let each = inhibitions_of(alloc, query)?;
    match walk_certificates(alloc, query, each.as_slice())? {
        Walk::Failed(number, reason) => Ok(PolicyOutcome::Bad(number, reason)),
        Walk::Ended(firsts, valid) => end(alloc, query, each.as_slice(), firsts.as_slice(), &valid),
    }
}

/// A path has one outcome: the same sets in the same order, or the same certificate and reason.
pub fn policy_outcome_laws()
    ensures { PolicyOutcomeIsOne }
{}
