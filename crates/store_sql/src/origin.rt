//! How a store came to have its tables.

/// A store has the tables of version 2; in one that was of version 1 the older tables stand before them.
#[derive(Clone, Copy, Debug, PartialEq, Eq)]
pub enum Origin {
    /// Made with the tables of version 2.
    Made,
    /// Made with those of version 1, and migrated.
    Migrated,
}
