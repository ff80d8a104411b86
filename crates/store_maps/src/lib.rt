//! What a store holds, slot by slot: the newest statements, looked up in its rows.
#![tactic(auto)]

mod creation;
mod crl_slot;
mod laws;
mod ocsp_slot;
mod on_certificate;

pub use creation::make;
pub use crl_slot::crl;
pub use laws::{issuer_laws, replaced_list_laws, single_laws};
pub use ocsp_slot::ocsp;
pub use on_certificate::{CertificateKey, answers_on};
