//! The party of a session.

use crate::believed::Believed;

/// The party of a session: whom it believes, and who keeps its statements.
#[derive(Drop)]
pub struct Party<K> {
    /// The fingerprints of good signatures.
    pub believed: Believed,
    /// Who keeps the newest statements.
    pub keeper: K,
}
