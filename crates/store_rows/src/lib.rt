//! The rows of a store, and what each statement makes of them.
#![tactic(auto)]

mod beside;
mod cell;
mod comparison;
mod creation;
mod crl;
mod entry;
mod issuer;
mod refill;
mod single;

pub use cell::{integer, natural, octets};
pub use comparison::has_entries;
pub use creation::{insert_version_of, make_tables};
pub use crl::{Head, find_crl, number_of, replace_crl, scope_number};
pub use entry::{ListKey, find_entry};
pub use issuer::{ID_LIMIT, add_issuer, find_issuer};
pub use refill::replace_entries;
pub use single::{find_single, replace_single};
