//! The lists of a database of version 1, which are for all certificates.

use store_rows::Head;

/// A list, under the id of its issuer.
#[derive(Clone, Copy)]
pub struct UnscopedList {
    pub issuer: u32,
    pub head: Head,
}

/// An entry of an issuer's list, with octets of its own.
#[derive(Drop)]
pub struct OwnEntry {
    pub issuer: u32,
    /// The contents octets of the serial number.
    pub serial: Vec<u8>,
    pub reason: u8,
}

/// All lists, and all their entries.
#[derive(Drop)]
pub struct UnscopedLists {
    pub lists: Vec<UnscopedList>,
    pub entries: Vec<OwnEntry>,
}
