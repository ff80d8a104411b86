//! The values of the library for C: texts of the caller, what is read from them, and answers as numbers. `capi` exports the calls.
#![tactic(auto)]

mod answer;
mod case;
mod diagnosis;
mod finding;
mod part;
mod policies;
mod questions;
mod refusal;
mod searching;
mod texts;
mod validating;

pub use answer::VerdictAnswer;
pub use diagnosis::{NumberedObstacle, WhyNotAnswer, answer_why_not};
pub use finding::{FindingAnswer, answer_search};
pub use part::Part;
pub use policies::{PolicyAnswer, PolicyInputsOfTexts, answer_policy_query};
pub use questions::{Asked, Place, SignatureQuestion, questions_of_query, questions_of_search};
pub use refusal::{Refusal, der_fault};
pub use searching::{Limits, SearchOfTexts};
pub use texts::{QueryOfTexts, Text};
pub use validating::{INVALID, REVOKED, answer_query};
