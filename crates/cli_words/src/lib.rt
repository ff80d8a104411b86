//! The command line of `x509check`.
#![tactic(auto)]

mod app;
mod arguments;
mod building;
mod leading;
mod line;
mod policies;
mod query;
mod search;

pub use leading::{RunOptions, RunWords, run_options};
pub use line::{Kind, Line, command_of};
pub use policies::PolicyWords;
pub use query::QueryWords;
pub use search::SearchWords;
