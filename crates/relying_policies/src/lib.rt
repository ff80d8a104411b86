//! Verdicts on paths whose policies are processed, for who asks for them.
#![tactic(auto)]

mod among;
mod apart;
mod copies;
mod finding;
mod policies;
mod verdict;

pub use among::find_among;
pub use apart::{PoliciesApart, search_policies_apart};
pub use finding::{FindingWithPolicies, find_with_policies, finding_with_policies_laws};
pub use policies::SearchPolicies;
pub use verdict::{
    VerdictWithPolicies, add_policies, join_verdict, outcome_of, verdict_with_policies,
    verdict_with_policies_laws,
};
