//! The steps of a session, what a request makes of its party, and how it is answered; and of a command, which are the same.
#![tactic(auto)]

mod answer;
mod answering;
mod asking;
mod believed;
mod believing;
mod checking;
mod commanding;
mod delivering;
mod ending;
mod finding;
mod found;
mod keeper;
mod laws;
mod listing;
mod operands;
mod party;
mod policy_checking;
mod policy_verdict;
mod printing;
mod receiver;
mod serving;
mod stepping;

pub use answer::SessionAnswer;
pub use asking::search_prints;
pub use believed::Believed;
pub use commanding::{ask_believing, deliver_believing};
pub use ending::End;
pub use finding::find_believing;
pub use found::FoundPath;
pub use keeper::Keeper;
pub use laws::crash_law;
pub use listing::listing_lines;
pub use operands::OperandSource;
pub use party::Party;
pub use policy_checking::check_believing;
pub use policy_verdict::PolicyVerdict;
pub use receiver::{AnswerQuery, AnswerSearch, TakeFacts};
pub use serving::{serve, serve_line};
pub use stepping::step;
