//! Why a text is no identity.

use thiserror::Error;

/// The rule that a text breaks.
#[derive(Clone, Copy, Debug, PartialEq, Eq, Error)]
pub enum IdentityRule {
    /// A character other than a letter, a digit, `-`, `_` and `.`.
    #[error("an octet that no host has")]
    HostOctet,
    /// A label that is empty, or longer than 63 octets.
    #[error("a label that is empty or too long")]
    Label,
    /// More than 253 octets.
    #[error("a host that is too long")]
    Length,
    /// A last label of digits alone, as an IPv4 address has.
    #[error("a host whose last label is a number")]
    Number,
    /// An address of another length than 4 or 16 octets.
    #[error("not an IP address")]
    Address,
    /// A local part that is empty, or has a character that no local part may have.
    #[error("not a local part")]
    LocalPart,
    /// A local part with no `@` and no host behind it.
    #[error("a mailbox without a host")]
    NoHost,
}

/// The rule that is broken, and where.
#[derive(Clone, Copy, Debug, PartialEq, Eq)]
pub struct IdentityFault {
    /// The rule.
    pub rule: IdentityRule,
    /// The offset of the first octet at which the text stops being an identity. For a label and a number it is where the label begins; for
    /// a length of the whole it is where the host or the address begins; for `NoHost` it is the length of the text.
    pub at: usize,
}
