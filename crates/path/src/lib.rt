//! Whether paths of certificates are valid (RFC 5280, 6), in a profile (4.2.1.10, 4.2.1.13 and 6.3.3).
#![tactic(auto)]

mod in_profile;
mod options;
mod profile_laws;
mod query;
mod reason;
mod state;
mod validation;

pub use in_profile::{certificate_profile_laws, read_certificate};
pub use options::Options;
pub use path_verifiers::Verifier;
pub use profile_laws::query_profile_laws;
pub use query::{Query, QueryFault};
pub use reason::{Outcome, Reason, Step};
pub use state::State;
pub use validation::{outcome_laws, validate, validate_with};
