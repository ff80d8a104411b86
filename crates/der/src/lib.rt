//! The Distinguished Encoding Rules (X.690) in a stated profile: which octets encode one value, and what is wrong with all others.
#![tactic(auto)]

mod contents;
mod encoding;
mod fault;
mod grammar;
mod header;
mod identifier;
mod length;
mod values;

pub use contents::is_contents;
pub use encoding::encoding_laws;
pub use fault::{Fault, Rule};
pub use grammar::{MAX_DEPTH, check};
pub use header::Header;
pub use identifier::{is_constructed_form, is_refused_identifier};
