//! The tables in which a store keeps revocation statements, and what it asks of them in SQL.
#![tactic(auto)]

mod creation;
mod crl;
mod entry;
mod fault;
mod issuer;
mod origin;
mod recognition;
mod shape;
mod single;
mod version;

pub use creation::{
    create_issuers, create_meta, create_ocsp, create_scoped_crls, create_scoped_entries,
};
pub use crl::{CrlCells, CrlKey, crl_rows, delete_crl, insert_crl};
pub use entry::{
    EntryCells, GROUP, Places, delete_entries, entries_between, entry_rows, insert_entries,
    insert_entry, push_columns,
};
pub use fault::StoreFault;
pub use issuer::{insert_issuer, issuer_rows};
pub use origin::Origin;
pub use recognition::{is_empty, is_version_1, origin_of};
pub use single::{SaidCells, SingleKey, delete_single, insert_single, single_rows};
pub use version::{delete_version, insert_version, version_rows};
