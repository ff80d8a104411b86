//! DER values (X.690) as trees: the tree of octets, and the octets of a tree.
#![tactic(auto)]

mod encoding;
mod tree;

pub use encoding::{EncodeFault, encode};
pub use tree::{Tree, parse_tree};
