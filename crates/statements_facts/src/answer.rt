//! What the newest statements say of one certificate. Times are in seconds from 1970-01-01T00:00:00Z.

use crate::single::Status;
use asn::Number20;

/// What a list says of one serial number.
#[derive(Clone, Copy)]
pub struct CrlAnswer {
    /// The number of the list (RFC 5280, 5.2.3).
    pub number: Number20,
    /// thisUpdate: from when the list counts.
    pub from: i64,
    /// nextUpdate: until when it counts.
    pub until: i64,
    /// The number of the reason (RFC 5280, 5.3.1) if the serial number is listed.
    pub reason: Option<u8>,
}

/// What a response says of one certificate (RFC 6960, 4.2.1).
#[derive(Clone, Copy)]
pub struct OcspAnswer {
    pub this_update: i64,
    pub produced_at: i64,
    /// From when the response counts.
    pub from: i64,
    /// Until when it counts.
    pub until: i64,
    pub status: Status,
}

/// The newest statements that speak of a certificate.
#[derive(Clone, Copy)]
pub struct Answers {
    /// The list of its issuer that is about all certificates.
    pub all: Option<CrlAnswer>,
    /// The list of its issuer that is about certificates of its kind, those of users or those of authorities.
    pub own: Option<CrlAnswer>,
    /// The response.
    pub ocsp: Option<OcspAnswer>,
}
