//! DER values, certificates and fingerprints as text. What is written goes to a writer piece by piece, and takes no memory.
#![tactic(auto)]

mod certificate;
mod fingerprint;
mod general;
mod name;
mod oid_text;
mod response;
mod revocation_list;
mod text;
mod tree;

pub use certificate::{certificate_to, write_octets};
pub use fingerprint::{PrintsFault, certificate_print_to, crl_print_to, response_prints_to};
pub use general::write_general;
pub use name::write_name;
pub use oid_text::write_oid;
pub use response::response_to;
pub use revocation_list::crl_to;
pub use text::{write_contents, write_hex};
pub use tree::{TreeFault, tree_to};
