//! Statements about revocation: whether one is genuine, and what it says (RFC 5280, 6.3.3; RFC 6960, 3.2).
#![tactic(auto)]

mod genuine_list;
mod genuine_response;
mod ids;
mod issuing;
mod laws;
mod listed;
mod responder;
mod signer;
mod singles;
mod statement;

pub use genuine_list::check_crl_issuer;
pub use genuine_response::response_singles;
pub use issuing::issuer_of;
pub use laws::{identity_laws, statement_laws, statement_profile_laws};
pub use responder::{is_named_by, may_sign_responses};
pub use statement::{Statement, genuine, genuine_under};
