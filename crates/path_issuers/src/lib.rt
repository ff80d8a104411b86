//! Who issued whom, among certificates that come in any order (RFC 4158).
#![tactic(auto)]

mod alone;
mod asking;
mod downward;
mod frontier;
mod keys;
mod linking;
mod links;
mod lists;
mod matching;
mod naming;
mod question;
mod search;
mod upward;
mod wanted;

pub use alone::{is_right_as_authority, is_right_as_target, issues};
pub use asking::{Sought, add_if, pick};
pub use linking::link;
pub use links::Links;
pub use lists::list_at;
pub use matching::{question_laws, questions};
pub use path::Options;
pub use question::{Issuer, SearchQuestion};
pub use search::Search;
pub use upward::{link_authorities, signers};
