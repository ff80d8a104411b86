//! Stores of the program: where they stand, how a run waits for one that is in use, and a store as the keeper of a session's statements.
#![tactic(auto)]

mod keeper;
mod machine;
mod stores;

pub use keeper::StoreKeeper;
pub use machine::{AnyFiles, Machine};
pub use stores::{Connected, Stores, failed};
