//! The verdict on a certificate under the paths that lead to it, whose policies are processed, by statements at hand.

ghost use Rattle.std.specs.Prelude.{IfOk, map};
ghost use Rattle.path_issuers.specs.View.{seen_search};
ghost use Rattle.statements.specs.Statement.{seen_statement};
ghost use Rattle.relying_policies.specs.FindingWithPolicies.{FindingWithPoliciesIsOne, FoundIsValidWithPolicies, IsFindingWithPolicies, NotFoundExactlyWhere};
ghost use Rattle.relying_policies.specs.SearchPolicies.{seen_search_policies};
ghost use Rattle.relying_texts.specs.Texts.{held_for};

use crate::among::find_among;
use crate::policies::{SearchPolicies, policies_of_candidate};
use crate::verdict::{VerdictWithPolicies, join_verdict};
use path_search::{Candidate, Search, search_laws};
use path_verifiers::Verifier;
use path_with_policies::outcome_with_policies_laws;
use relying_agreement::verdict_laws;
use relying_search::{Finding, FindingBudget};
use statements::Statement;
use std::alloc::{AllocError, Global};

/// What is found for a certificate among the paths whose policies are processed.
#[derive(Drop)]
pub enum FindingWithPolicies<'c> {
    /// The first path that is valid with its policies and has the verdict `Valid`; if there is none, the first that is valid with its
    /// policies, with its verdict. In both cases with the policies at the end of the path.
    Found(Candidate, VerdictWithPolicies<'c>),
    /// No path is valid with its policies.
    NotFound,
    /// What the search might spend is used up.
    GaveUp,
}

/// Searches for a path to the target, as `relying_texts::find` does, of which the policies are processed (RFC 5280, 6.1): a path that is
/// valid without its policies, but not with them, is passed over. The policies of the certificates are taken apart before the search, as
/// `search_policies_apart` does; else those that need policy processing are refused.
///
/// The budget's count of verdicts is that of the paths valid without their policies that are asked about. For each of these the policies are
/// processed, in n log n in those of its certificates, and for the path that is found once more. The only error is lack of memory.
pub fn find_with_policies<'c, V: Verifier>(
    alloc: Global,
    verifier: &V,
    search: &Search<'_, '_>,
    policies: &SearchPolicies<'_, 'c>,
    statements: &[Statement<'_>],
    budget: FindingBudget,
) -> Result<FindingWithPolicies<'c>, AllocError>
    ensures { IfOk result (IsFindingWithPolicies (V.accepts verifier.now)
        (held_for (V.accepts verifier.now) (map seen_statement statements.now))
        (seen_search search.now) (seen_search_policies policies.now) budget) }
{
    search_laws();
    verdict_laws();
    outcome_with_policies_laws();
    match find_among(alloc, verifier, policies, search, statements, budget)? {
        Finding::Found(path, verdict) => {
            let outcome = policies_of_candidate(alloc, policies, &path)?;
            Ok(FindingWithPolicies::Found(path, join_verdict(verdict, outcome)))
        }
        Finding::NotFound => Ok(FindingWithPolicies::NotFound),
        Finding::GaveUp => Ok(FindingWithPolicies::GaveUp),
    }
}

/// A path that is found is valid with its policies, and no path is found exactly where none is valid so. A search has one finding, whatever
/// it may spend, if that suffices.
pub fn finding_with_policies_laws()
    ensures valid { FoundIsValidWithPolicies }
    ensures none { NotFoundExactlyWhere }
    ensures one { FindingWithPoliciesIsOne }
{
    search_laws();
    verdict_laws();
    outcome_with_policies_laws();
}
