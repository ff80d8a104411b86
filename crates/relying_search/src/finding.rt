//! What is found, and what that may cost.

use path_search::{Budget, Candidate};
use relying_agreement::Verdict;

/// What a search for a verdict may spend.
#[derive(Clone, Copy, Debug, PartialEq, Eq)]
pub struct FindingBudget {
    /// The search for valid paths.
    pub search: Budget,
    /// How many valid paths may be asked about, one after the other.
    pub verdicts: usize,
}

/// What is found for a certificate.
#[derive(Debug, PartialEq, Eq, Drop)]
pub enum Finding {
    /// The first valid path whose verdict is `Valid`; if there is none, the first valid path, with its verdict.
    Found(Candidate, Verdict),
    /// No path is valid.
    NotFound,
    /// What the search might spend is used up.
    GaveUp,
}
