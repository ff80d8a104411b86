//! Bases of constraints on mail addresses and on URIs, as they stand in a certificate.

use asn::Tlv;

/// A base, which is permitted or excluded.
#[derive(Clone, Copy)]
pub(crate) enum Base<'a> {
    /// Of rfc822Names.
    Mail(bool, Tlv<'a>),
    /// Of uniformResourceIdentifiers.
    Host(bool, Tlv<'a>),
}
