//! The verdict on a path of certificates by the statements that a store holds (RFC 5280, 6; RFC 6960, 3.2), and the comparison of two.
#![tactic(auto)]

mod comparing;
mod evidence;
mod fault;
mod finding;
mod looking;
mod verdicts;

pub use comparing::compare;
pub use fault::Fault;
pub use finding::find;
pub use path::{Options, Query, QueryFault};
pub use relying_agreement::{Comparison, Verdict};
pub use verdicts::verdict;
