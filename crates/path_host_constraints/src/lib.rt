//! The constraints on mail addresses and on the hosts of URIs that the certificates of a path leave to later ones (RFC 5280, 4.2.1.10,
//! 6.1.2 (b) and (c), 6.1.4 (g)).
#![tactic(auto)]

mod constraints;
mod host_lists;
mod indexes;
mod left_by;
mod mail_lists;

pub use constraints::HostConstraints;
pub use left_by::host_constraints_laws;
