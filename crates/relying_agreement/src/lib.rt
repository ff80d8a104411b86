//! When relying parties agree: the verdict on a path, as a definition, and the laws of it (RFC 5280, 6; RFC 6960, 2 and 3).
#![tactic(auto)]

mod agreement;
mod verdict;

pub use agreement::{
    agreement_examples, agreement_laws, comparison_laws, composition_laws, taking_laws,
    verdict_laws,
};
pub use verdict::{Comparison, Verdict};
