//! What a store holds, listed: issuers, revocation lists and what responses say, each table read once.
#![tactic(auto)]

mod count_test;
mod counted;
mod held;
mod issuer_test;
mod laws;
mod list_test;
mod reading;
mod single_test;

pub use held::{HeldIssuer, HeldList, HeldSingle, Listing};
pub use laws::{held_laws, listed_laws};
pub use reading::read_listing;
