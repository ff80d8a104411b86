//! What a statement says.

use crate::issuer::Issuer;
use crate::revoked::RevokedSerials;
use crate::scope::Scope;
use crate::single::Singles;
use asn::Number20;

/// What a revocation list says (RFC 5280, 5.1). Times are in seconds from 1970-01-01T00:00:00Z.
#[derive(Drop)]
pub struct CrlFacts<'a> {
    /// For whom the list is kept: its issuer; or, if it is published by distribution point (5.2.5), its issuer at the first name of the point.
    pub issuer: Issuer<'a>,
    /// And its issuer at each further name of the point, in order; none of a whole list.
    pub others: Vec<Issuer<'a>>,
    /// Which certificates of the issuer it is about.
    pub scope: Scope,
    /// The CRL number: of two lists of one issuer and scope the one with the greater is newer.
    pub number: Number20,
    /// thisUpdate: from when the list counts.
    pub from: i64,
    /// nextUpdate: until when it counts.
    pub until: i64,
    pub revoked: RevokedSerials<'a>,
}

/// What an OCSP response says (RFC 6960, 4.2.1).
#[derive(Drop)]
pub struct OcspFacts<'a> {
    pub issuer: Issuer<'a>,
    pub singles: Singles<'a>,
}

/// What a genuine statement says.
#[derive(Drop)]
pub enum Facts<'a> {
    Crl(CrlFacts<'a>),
    Ocsp(OcspFacts<'a>),
}
