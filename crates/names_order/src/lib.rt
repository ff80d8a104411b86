//! Subtrees of name constraints in order, and which names lie in one of many, found by halving (RFC 5280, 4.2.1.10).
#![tactic(auto)]

mod comparison;
mod index;

pub use comparison::{order, order_laws};
pub use index::Index;
