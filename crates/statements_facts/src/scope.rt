//! Which certificates of its issuer a list is about (RFC 5280, 5.2.5).

/// The scope of a list: all certificates of its issuer, those of users alone, or those of certification authorities alone.
#[derive(Clone, Copy, Debug, PartialEq, Eq)]
pub enum Scope {
    All,
    User,
    Ca,
}
