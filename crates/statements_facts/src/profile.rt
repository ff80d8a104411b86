//! How much of the standard is served.

/// Which profile of RFC 5280 and RFC 6960 counts.
#[derive(Clone, Copy, Debug, PartialEq, Eq)]
pub enum Profile {
    /// The stated profile: lists about all certificates of an issuer, its users' or its CAs' (RFC 5280, 5.2.5), and responses whose ids are
    /// by SHA-1 (RFC 6960, 4.1.1).
    Stated,
    /// It, lists that are published by distribution point, and responses whose ids are by SHA-256.
    Wide,
}
