//! The policies of the paths of a search.

ghost use Rattle.std.specs.Prelude.{◌≡◌, IfOk, map};
ghost use Rattle.path_search.specs.Answer.{seen_candidate};
ghost use Rattle.path_policies.specs.Outcome.{IsPolicyOutcome};
ghost use Rattle.path_policies.specs.Seen.{seen_policy_certificate};
ghost use Rattle.relying_policies.specs.SearchPolicies.{policies_about, policies_at, policies_down_to_target, seen_search_policies};
ghost use Rattle.relying_policies.specs.Telling.{TellsWithPolicies};

use crate::copies::copy_of;
use path::Outcome;
use path_policies::{PolicyCertificate, PolicyOutcome, PolicyQuery, process_policies};
use path_search::{Candidate, Search};
use path_with_policies::{
    OutcomeWithPolicies, PolicyInputs, join_outcomes, outcome_with_policies_laws,
};
use relying_search::PathFilter;
use std::alloc::{AllocError, Global};

/// What counts for policies of the certificates of a search, and what the user asks of policies (RFC 5280, 6.1.1). As a filter, it lets a
/// path pass that is valid with its policies.
#[derive(Clone, Copy)]
pub struct SearchPolicies<'p, 'c> {
    /// Of the certificates in the bag, in their order.
    pub bag: &'p [PolicyCertificate<'c>],
    pub target: &'p PolicyCertificate<'c>,
    pub inputs: PolicyInputs<'p, 'c>,
}

/// What counts of the certificate at a place of the bag; of the target, if there is none.
fn policies_at<'p, 'c>(policies: &SearchPolicies<'p, 'c>, place: usize) -> &'p PolicyCertificate<'c>
    ensures { seen_policy_certificate result.now
        ≡ policies_at (seen_search_policies policies.now) place }
{
    policies.bag.get(place).unwrap_or(policies.target)
}

/// What counts of the certificates of a path, from below the anchor downward.
fn certificates_of<'c>(
    alloc: Global,
    policies: &SearchPolicies<'_, 'c>,
    above: &[usize],
) -> Result<Vec<PolicyCertificate<'c>>, AllocError>
    ensures { IfOk result (λ path. map seen_policy_certificate path.items
        ≡ policies_down_to_target (seen_search_policies policies.now) above.now) }
{
    let count = above.len();
    let mut path = Vec::with_capacity(alloc, count + 1)?;
    for index in 0..count {
        let certificate = policies_at(policies, above[count - 1 - index]);
        let copy = copy_of(alloc, certificate)?;
        path.push(copy)?;
    }
    let last = copy_of(alloc, policies.target)?;
    path.push(last)?;
    Ok(path)
}

/// The outcome of the policies of a candidate's path.
pub(crate) fn policies_of_candidate<'c>(
    alloc: Global,
    policies: &SearchPolicies<'_, 'c>,
    candidate: &Candidate,
) -> Result<PolicyOutcome<'c>, AllocError>
    ensures { IfOk result (IsPolicyOutcome (policies_about (seen_search_policies policies.now)
        (seen_candidate candidate.now))) }
{
    let certificates = certificates_of(alloc, policies, candidate.above.as_slice())?;
    let query = PolicyQuery {
        certificates: certificates.as_slice(),
        initial_policies: policies.inputs.initial_policies,
        inhibit_policy_mapping: policies.inputs.inhibit_policy_mapping,
        require_explicit_policy: policies.inputs.require_explicit_policy,
        inhibit_any_policy: policies.inputs.inhibit_any_policy,
    };
    process_policies(alloc, &query)
}

/// Whether a path is valid with its policies, if it is valid without them and this is the outcome of its policies.
fn is_good(policies: PolicyOutcome<'_>) -> bool
    ensures { TellsWithPolicies policies.entry result }
{
    outcome_with_policies_laws();
    match join_outcomes(Outcome::Good, policies) {
        OutcomeWithPolicies::Good(_sets) => true,
        OutcomeWithPolicies::Bad(_number, _reason) => false,
    }
}

impl PathFilter for SearchPolicies<'_, '_> {
    ghost use Rattle.relying_policies.specs.SearchPolicies.{IsValidUnderPolicies, seen_search_policies};

    ghost counts = { λ policies. IsValidUnderPolicies (seen_search_policies policies) };

    fn passes(
        &self,
        alloc: Global,
        _search: &Search<'_, '_>,
        candidate: &Candidate,
    ) -> Result<bool, AllocError> {
        Ok(is_good(policies_of_candidate(alloc, self, candidate)?))
    }
}
