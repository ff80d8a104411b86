//! The validation of a path whose policies are processed (RFC 5280, 6.1).

ghost use Rattle.std.specs.Prelude.{◌≡◌, IfOk};
ghost use Rattle.path_with_policies.specs.WithPolicies.{IsOutcomeWithPolicies, OutcomeWithPoliciesIsOne, ValidIsValidWithoutPolicies};
ghost use Rattle.path_with_policies.specs.Joining.{Joins, reason_of};

use crate::outcome::OutcomeWithPolicies;
use crate::query::QueryWithPolicies;
use path::{Outcome, Reason};
use path_policies::{PolicyOutcome, PolicyReason, policy_outcome_laws, process_policies};
use path_verifiers::Verifier;
use std::alloc::{AllocError, Global};

/// The reason of a path for one of policies.
pub fn reason_of_policy(reason: PolicyReason) -> Reason
    ensures { result ≡ reason_of reason }
{
    match reason {
        PolicyReason::NoValidPolicy => Reason::NoValidPolicy,
        PolicyReason::AnyPolicyMapped => Reason::AnyPolicyMapped,
        PolicyReason::NoUserPolicy => Reason::NoUserPolicy,
    }
}

/// The outcome, by that of the path without its policies and that of its policies alone: the first certificate that one of the two refuses,
/// and of one certificate the reason that is not of policies.
pub fn join_outcomes<'c>(outcome: Outcome, policies: PolicyOutcome<'c>) -> OutcomeWithPolicies<'c>
    ensures { Joins outcome policies.entry result }
{
    match (outcome, policies) {
        (Outcome::Good, PolicyOutcome::Good(sets)) => OutcomeWithPolicies::Good(sets),
        (Outcome::Bad(number, reason), PolicyOutcome::Good(_)) => {
            OutcomeWithPolicies::Bad(number, reason)
        }
        (Outcome::Good, PolicyOutcome::Bad(number, reason)) => {
            OutcomeWithPolicies::Bad(number, reason_of_policy(reason))
        }
        (Outcome::Bad(number, reason), PolicyOutcome::Bad(earlier, why)) => {
            if earlier < number {
                OutcomeWithPolicies::Bad(earlier, reason_of_policy(why))
            } else {
                OutcomeWithPolicies::Bad(number, reason)
            }
        }
    }
}

/// Validates a path and processes its policies (RFC 5280, 6.1): the policies at the end, or the first certificate that is refused, and
/// why. Of several reasons at one certificate the one of the least rank is reported; those of policies are the last.
///
/// Time is that of `validate` and of `process_policies`, which may both be done if the path is refused.
pub fn validate_with_policies<'c, V: Verifier>(
    alloc: Global,
    verifier: &V,
    query: &QueryWithPolicies<'_, 'c>,
) -> Result<OutcomeWithPolicies<'c>, AllocError>
    ensures { IfOk result (IsOutcomeWithPolicies (V.accepts verifier.now) query.now) }
{
    let outcome = query.path().validate(alloc, verifier)?;
    let policies = process_policies(alloc, &query.policies())?;
    Ok(join_outcomes(outcome, policies))
}

/// A path has one outcome: the same policies at the end, in the same order, or the same certificate and reason. One that is valid is valid
/// without its policies too.
pub fn outcome_with_policies_laws()
    ensures one { OutcomeWithPoliciesIsOne }
    ensures valid { ValidIsValidWithoutPolicies }
{
    policy_outcome_laws();
}
