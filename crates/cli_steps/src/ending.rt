//! How sessions end.

/// How a session ended.
#[derive(Clone, Copy, Debug, PartialEq, Eq)]
pub enum End {
    /// A line asked for it.
    Quit,
    /// The source is at its end.
    Finished,
    /// The connection of the keeper was shut.
    Shut,
    /// An answer could not be written.
    Unwritable,
    /// The source could not be read.
    Unreadable,
    /// There was no memory for a line.
    NoMemory,
}
