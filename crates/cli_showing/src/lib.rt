//! What a file says, in print: its DER values, its certificate, revocation list or response, and their fingerprints.
#![tactic(auto)]

mod showing;

pub use showing::{prints, show, tree};
