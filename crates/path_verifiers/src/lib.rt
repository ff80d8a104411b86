//! Who judges signatures: a trait, fingerprints, and a verifier that believes a list of them.
#![tactic(auto)]

mod fingerprinting;
mod list_verifier;
mod verifier;

pub use fingerprinting::{fingerprint, framing_laws};
pub use list_verifier::ListVerifier;
pub use verifier::Verifier;
