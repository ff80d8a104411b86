//! Texts of attribute values, prepared for comparison (RFC 5280, 7.1).
#![tactic(auto)]

mod preparation;

pub use preparation::{preparation_laws, prepared_text, same_prepared};
