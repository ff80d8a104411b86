//! The verdict on a path whose policies are processed.

ghost use Rattle.std.specs.Prelude.{◌≡◌, IfOk, map};
ghost use Rattle.relying_policies.specs.Joining.{outcome_in};
ghost use Rattle.relying_policies.specs.WithPolicies.{AddsPolicies, IsVerdictWithPoliciesByStatements, InvalidWithPoliciesExactlyWhere, JoinsVerdict, SameVerdictsAreSameWithPolicies, ValidWithPoliciesExactlyWhere};
ghost use Rattle.statements.specs.Statement.{seen_statement};

use path::Outcome;
use path_policies::{PolicyOutcome, PolicySets, process_policies};
use path_verifiers::Verifier;
use path_with_policies::{
    OutcomeWithPolicies, QueryWithPolicies, join_outcomes, outcome_with_policies_laws,
};
use relying_agreement::{Verdict, verdict_laws};
use relying_texts::verdict;
use statements::Statement;
use std::alloc::{AllocError, Global};

/// The verdict on a path whose policies are processed.
#[derive(Drop)]
pub struct VerdictWithPolicies<'c> {
    pub verdict: Verdict,
    /// The policies at the end of the path (RFC 5280, 6.1.5 (g)); none if the path is invalid.
    pub policies: Option<PolicySets<'c>>,
}

/// What a verdict says of the validation of its path: Good, unless it is Invalid.
pub fn outcome_of(verdict: Verdict) -> Outcome
    ensures { result ≡ outcome_in verdict }
{
    match verdict {
        Verdict::Invalid(number, reason) => Outcome::Bad(number, reason),
        Verdict::Revoked(_, _) | Verdict::Unknown(_) | Verdict::Valid => Outcome::Good,
    }
}

/// The verdict, by that on the path without its policies and the outcome of its policies alone: Invalid with the first certificate that one
/// of the two refuses, else the verdict, with the policies.
pub fn join_verdict<'c>(verdict: Verdict, policies: PolicyOutcome<'c>) -> VerdictWithPolicies<'c>
    ensures { JoinsVerdict verdict policies.entry result }
{
    verdict_laws();
    outcome_with_policies_laws();
    match join_outcomes(outcome_of(verdict), policies) {
        OutcomeWithPolicies::Bad(number, reason) => VerdictWithPolicies {
            verdict: Verdict::Invalid(number, reason),
            policies: None,
        },
        OutcomeWithPolicies::Good(sets) => VerdictWithPolicies {
            verdict,
            policies: Some(sets),
        },
    }
}

/// Adds its policies to a verdict on a path, which is that of a party or of statements at hand on `query.path()`: Invalid with the first
/// certificate that the path or its policies refuse, of one certificate with the reason of the path; else the verdict, with the policies at
/// the end. The only error is lack of memory.
pub fn add_policies<'c>(
    alloc: Global,
    verdict: Verdict,
    query: &QueryWithPolicies<'_, 'c>,
) -> Result<VerdictWithPolicies<'c>, AllocError>
    ensures { IfOk result (AddsPolicies query.now verdict) }
{
    let policies = process_policies(alloc, &query.policies())?;
    Ok(join_verdict(verdict, policies))
}

/// The verdict on a path whose policies are processed, by statements at hand, as `relying_texts::verdict` answers it. The only error is lack
/// of memory.
pub fn verdict_with_policies<'c, V: Verifier>(
    alloc: Global,
    verifier: &V,
    query: &QueryWithPolicies<'_, 'c>,
    statements: &[Statement<'_>],
) -> Result<VerdictWithPolicies<'c>, AllocError>
    ensures { IfOk result (IsVerdictWithPoliciesByStatements (V.accepts verifier.now) query.now
        (map seen_statement statements.now)) }
{
    let verdict = verdict(alloc, verifier, query.path(), statements)?;
    add_policies(alloc, verdict, query)
}

/// When a verdict is Valid, under which policies, and when it is Invalid, why; and that two parties whose verdicts are the same without the
/// policies of the path answer the same with them.
pub fn verdict_with_policies_laws()
    ensures valid { ValidWithPoliciesExactlyWhere }
    ensures invalid { InvalidWithPoliciesExactlyWhere }
    ensures same { SameVerdictsAreSameWithPolicies }
{
    verdict_laws();
    outcome_with_policies_laws();
}
