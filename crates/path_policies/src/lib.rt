//! Certificate policies of a path (RFC 5280, 6.1): whether they are acceptable, and which are valid at the end.
#![tactic(auto)]

mod counter;
mod following;
mod inhibitions;
mod lasting;
mod lists;
mod outcome;
mod policy;
mod policy_set;
mod processing;
mod query;
mod reason;
mod state;
mod tree;
mod walk;

pub use policy::ANY_POLICY;
pub use processing::{policy_outcome_laws, process_policies};
pub use query::{PolicyCertificate, PolicyQuery, policy_certificates};
pub use reason::{PolicyOutcome, PolicyReason, PolicySets};
pub use state::{PolicyState, PolicyStep};
pub use tree::tree_laws;
