//! What one certificate of a path has to meet, alone and under the name constraints of those before it (RFC 5280, 6.1.3 to 6.1.5).
#![tactic(auto)]

mod conditions;
mod constraints;
mod coverage;
mod excluded;
mod form_set;
mod narrowing;
mod repetition;
mod subtree_list;

pub use conditions::{
    allows_purpose, are_critical_extensions_known, has_begun, has_not_expired, is_ca,
    may_sign_certificates, needs_no_policy_tree, path_length,
};
pub use constraints::Constraints;
pub use form_set::FormSet;
