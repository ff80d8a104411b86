//! Verdicts on paths by statements at hand, without a store (RFC 5280, 6; RFC 6960, 3.2).
#![tactic(auto)]

mod contents;
mod deliveries;
mod finding;
mod gathering;
mod newest;
mod reading;
mod responses;
mod same_issuer;
mod verdicts;

pub use deliveries::delivery_laws;
pub use finding::{find, verdict_on_candidate};
pub use reading::{StatementsFault, read_statements, read_statements_under};
pub use relying_agreement::Verdict;
pub use verdicts::verdict;
