//! The verdict on a certificate under the paths that lead to it, among certificates that come in any order (RFC 4158; RFC 5280, 6).
#![tactic(auto)]

mod agreement;
mod among_agreement;
mod among_asked;
mod asked;
mod evidence;
mod filter;
mod finding;
mod link;
mod links;

pub use agreement::finding_laws;
pub use among_agreement::{among_all_law, finding_among_laws};
pub use among_asked::AskedAmong;
pub use asked::Asked;
pub use evidence::Evidence;
pub use filter::{EachPath, PathFilter};
pub use finding::{Finding, FindingBudget};
pub use link::{Link, links_of, may_sign_crls, own_scope};
pub use links::links_of_candidate;
