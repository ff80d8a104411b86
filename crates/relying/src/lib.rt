//! Relying parties: a verifier with a store of statements, the events that reach it, and its verdicts on paths (RFC 5280, 6; RFC 6960,
//! 3.2).
#![tactic(auto)]

mod agreement;
mod comparing;
mod delivering;
mod events;
mod fault;
mod finding;
mod node;
mod resting;
mod running;
mod verdicts;

pub use agreement::{call_laws, node_laws};
pub use comparing::compare;
pub use delivering::{read_statement, read_statement_under};
pub use events::{DeliverAnswer, Event};
pub use fault::{DeliverFault, RunFault};
pub use finding::find_over;
pub use node::Node;
pub use relying_search::{Finding, FindingBudget, finding_laws};
pub use relying_verdicts::{Comparison, Fault, Options, Query, QueryFault, Verdict};
pub use running::run_laws;
pub use store::ReopenFault;
pub use verdicts::verdict_of;
