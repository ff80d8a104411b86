//! One run of the program: what the words of its command line ask for, deliveries to the store at a path, verdicts by what stores at
//! paths hold, what one holds, and how it says what failed.
#![tactic(auto)]

mod at_path;
mod checking;
mod comparing;
mod delivering;
mod execution;
mod explanation;
mod finding;
mod listing;
mod policy_checking;
mod sessions;
mod starting;
mod writing;

pub use at_path::StorePair;
pub use checking::check;
pub use cli_answers::{comparison_status, search_status, verdict_status};
pub use cli_failures::{Extent, Failure, Source};
pub use cli_store::{AnyFiles, Connected, Machine, Stores};
pub use comparing::compare;
pub use delivering::{Delivery, deliver};
pub use execution::{Ended, execute, executed};
pub use explanation::explain;
pub use finding::find;
pub use listing::list;
pub use policy_checking::check_with_policies;
pub use sessions::{SessionWords, session};
pub use starting::start;
