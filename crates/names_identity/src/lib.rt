//! Whom a certificate speaks for: reference identities, and the names of a subjectAltName that match them (RFC 9525; RFC 5280, 4.2.1.6 and
//! 7.5).
#![tactic(auto)]

mod fault;
mod hosts;
mod identity;
mod mailboxes;
mod matching;

pub use fault::{IdentityFault, IdentityRule};
pub use identity::Identity;
pub use matching::{matching_laws, speaks_for};
