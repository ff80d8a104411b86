//! Stores that begin: tables made in an empty database, and a database read once and taken for a store.
#![tactic(auto)]

mod cell;
mod creation;
mod crl_test;
mod entry_test;
mod inspection;
mod issuer_test;
mod row_test;
mod single_test;
mod unscoped;
mod unscoped_test;
mod version_1;
mod version_test;

pub use cell::{below, blob, number, signed};
pub use creation::create;
pub use inspection::{inspect, inspect_under};
pub use row_test::{RowTest, test_rows};
pub use unscoped::{OwnEntry, UnscopedList, UnscopedLists};
pub use version_1::read_version_1;
