//! Certificate revocation lists (RFC 5280, 5): their layout, read from DER with the first fault and its place.
#![tactic(auto)]

mod entry;
mod entry_extension;
mod entry_list;
mod entry_walk;
mod issuer_scope;
mod issuing_point;
mod layout;
mod list;
mod list_extension;
mod number;
mod parts;

pub use cert_points::GeneralNames;
pub use entry::Entry;
pub use entry_walk::Entries;
pub use layout::{list_laws, profile_laws};
pub use list::Crl;
pub use number::{CrlNumber, number_laws};
pub use statements_facts::{Profile, Scope};
pub use statements_parts::{ReadingFault, StatementRefusal, StatementRule};
