//! A store of version 1 becomes one of version 2, and a store becomes one of the wide profile.
#![tactic(auto)]

mod grouped;
mod grouping;
mod listing;
mod migrating;
mod preparing;
mod tables_text;
mod widening;

pub use migrating::migrate;
pub use tables_text::version_1_tables;
pub use widening::widen;
