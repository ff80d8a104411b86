//! Two relying parties with the octets that reach them: all premises of agreement can hold.
#![tactic(auto)]

mod laws;

pub use laws::octet_laws;
