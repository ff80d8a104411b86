//! What signed statements say of certificates (RFC 5280, 5; RFC 6960, 4.2): for whom they speak, from when until when, and what; and which
//! fact of a slot is the newest.
#![tactic(auto)]

mod answer;
mod by_prefix;
mod counts;
mod fact;
mod issuer;
mod order;
mod prefix;
mod prefixed;
mod profile;
mod revoked;
mod scope;
mod single;

pub use answer::{Answers, CrlAnswer, OcspAnswer};
pub use counts::{Counts, TakenAs};
pub use fact::{CrlFacts, Facts, OcspFacts};
pub use issuer::{Issuer, NameKey};
pub use order::{coming_laws, newest_laws};
pub use profile::Profile;
pub use revoked::{Listed, RevokedSerials};
pub use scope::Scope;
pub use single::{Single, Singles, Status};
