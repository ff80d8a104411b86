//! The library for C: numbers and parts of the caller's text. `x509check.h` says how to call it; `capi_values` has what the calls take and
//! answer.
#![tactic(auto)]

mod answer;
mod checking;
mod digest_call;
mod fields;
mod finding;
mod fingerprint_call;
mod identity_call;
mod name_calls;
mod policy_call;
mod questions;
mod reading;
mod validating;
mod version_call;
mod why_not_call;

pub use answer::{Answer, CertificateAnswer};
pub use checking::x509check_check;
pub use digest_call::x509check_sha256;
pub use fields::{ExtensionFields, Fields};
pub use finding::x509check_find;
pub use fingerprint_call::x509check_fingerprint;
pub use identity_call::{SpeakingAnswer, x509check_speaks_for};
pub use name_calls::{x509check_fault_name, x509check_reason_name};
pub use policy_call::x509check_validate_with_policies;
pub use questions::{x509check_find_questions, x509check_questions};
pub use reading::x509check_read_certificate;
pub use validating::x509check_validate;
pub use version_call::x509check_version;
pub use why_not_call::x509check_why_not;

#[cfg(test)]
mod authority;
#[cfg(test)]
mod ends;
#[cfg(test)]
mod extended;
#[cfg(test)]
mod layout;
#[cfg(test)]
mod policies;
#[cfg(test)]
mod profiles;
#[cfg(test)]
mod searches;
#[cfg(test)]
mod tests;
