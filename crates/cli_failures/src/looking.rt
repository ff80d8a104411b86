//! What is found at a path, looked at after a failure.

use sqlite_std_file::{OpenError, Unknown};
use std::io::{ErrorKind, Read};
use std::{fs, io};

/// What stands at a path.
#[derive(Clone, Copy, Debug, PartialEq, Eq)]
pub(crate) enum Found {
    Nothing,
    Folder,
    /// A file that this process may not open.
    Forbidden,
    /// A file in PEM.
    Pem,
    /// A database of SQLite, of whatever kind.
    Database,
    Other,
}

// How the first octets of a file tell what it holds.
const PEM: &[u8] = b"-----BEGIN ";

const DATABASE: &[u8] = b"SQLite format 3\0";

const FIRST: usize = 16;

fn found_instead(error: &io::Error) -> Found {
    match error.kind() {
        ErrorKind::NotFound => Found::Nothing,
        ErrorKind::PermissionDenied => Found::Forbidden,
        _ => Found::Other,
    }
}

fn first_octets(rt: &HostRuntime, path: &str) -> io::Result<[u8; FIRST]> {
    let mut first = [0u8; FIRST];
    let mut file = fs::open(rt, path)?;
    let _ = file.read(&mut first)?;
    Ok(first)
}

/// What stands at the path.
pub(crate) fn look_at(rt: &HostRuntime, path: &str) -> Found {
    match fs::metadata(rt, path) {
        Ok(metadata) if metadata.is_dir() => return Found::Folder,
        Ok(_) => {}
        Err(error) => return found_instead(&error),
    }
    match first_octets(rt, path) {
        Ok(first) if first.starts_with(PEM) => Found::Pem,
        Ok(first) if first.starts_with(DATABASE) => Found::Database,
        Ok(_) => Found::Other,
        Err(error) => found_instead(&error),
    }
}

/// Whether another process has the database at the path open. A database that nobody has open is opened, and closed again.
pub fn is_in_use(rt: &HostRuntime, path: &str) -> bool {
    if look_at(rt, path) != Found::Database {
        return false;
    }
    match sqlite_std_file::open(rt, path, Unknown) {
        Err(OpenError::Busy) => true,
        _ => false,
    }
}
