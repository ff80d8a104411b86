//! Which of the certificates at hand issued which.

/// For each place of the bag, and for the target behind them: the places of those that issued it, and of the anchors that did, each in
/// order.
#[derive(Drop)]
pub struct Links {
    pub issuers: Vec<Vec<usize>>,
    pub anchors: Vec<Vec<usize>>,
}
