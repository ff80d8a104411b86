//! Statements put into a store: each slot holds the newest.
#![tactic(auto)]

mod delivery;
mod known;
mod lists;
mod responses;

pub use delivery::put;
pub use lists::take_list;
pub use responses::take_single;
