//! What a verifier may be asked for a verdict, or for what a search finds, by statements (RFC 4158; RFC 5280, 6; RFC 6960, 3.2).
#![tactic(auto)]

mod asking;
mod deciding;
mod finding;
mod issuers;
mod part;
mod placed;
mod question;
mod searched;
mod signatures;
mod statement_questions;
mod under_issuers;

pub use asking::questions;
pub use deciding::{finding_question_laws, question_laws, why_not_question_laws};
pub use finding::finding_questions;
pub use part::{TextPart, WhichText};
pub use question::SignatureQuestion;
