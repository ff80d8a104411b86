//! Paths of certificates whose policies are processed (RFC 5280, 6.1), for who asks for them.
#![tactic(auto)]

mod apart;
mod outcome;
mod query;
mod validation;

pub use apart::policies_apart;
pub use outcome::OutcomeWithPolicies;
pub use query::{PolicyInputs, QueryWithPolicies};
pub use validation::{
    join_outcomes, outcome_with_policies_laws, reason_of_policy, validate_with_policies,
};
