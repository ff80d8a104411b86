//! What a search may cost, and what it finds.

/// What a search may spend.
#[derive(Clone, Copy, Debug, PartialEq, Eq)]
pub struct Budget {
    /// How often the verifier may be asked.
    pub signatures: usize,
    /// How many ends of paths may be looked at.
    pub steps: usize,
}

/// A path: the place of its anchor, and the places in the bag of the certificates above the target, from the target upward.
#[derive(Debug, PartialEq, Eq, Drop)]
pub struct Candidate {
    pub anchor: usize,
    pub above: Vec<usize>,
}

/// What a search answers.
#[derive(Debug, PartialEq, Eq, Drop)]
pub enum Answer {
    /// The first valid path: the shortest, and of these the one with the lesser places, from the target upward, and then of the anchor.
    Found(Candidate),
    /// No path is valid.
    NotFound,
    /// What the search might spend is used up.
    GaveUp,
}
