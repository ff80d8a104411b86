//! What a certificate, a revocation list or an OCSP response says beyond what a verdict needs, as lines of text for people. A text is made
//! in memory.
#![tactic(auto)]

mod access;
mod address;
mod algorithm;
mod bits;
mod certificate;
mod constraints;
mod distribution;
mod extension;
mod general;
mod key;
mod key_identifiers;
mod moment;
mod named_oid;
mod policies;
mod response;
mod revocation_list;
mod text;
mod value_fault;

pub use certificate::certificate_details;
pub use response::response_details;
pub use revocation_list::list_details;
