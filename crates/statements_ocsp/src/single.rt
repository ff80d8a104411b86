//! Single responses (RFC 6960, 4.2.1).

ghost use Rattle.asn.specs.Time.{IsBeforeYear10000};

use crate::cert_id::CertId;
use crate::cert_status::CertStatus;

/// SingleResponse ::= SEQUENCE { certID CertID, certStatus CertStatus, thisUpdate GeneralizedTime, nextUpdate [0] EXPLICIT
/// GeneralizedTime OPTIONAL, singleExtensions [1] EXPLICIT Extensions OPTIONAL }
#[derive(Clone, Copy, Debug, PartialEq, Eq)]
pub struct SingleResponse<'a> {
    /// The certificate that it is about.
    pub id: CertId<'a>,
    pub status: CertStatus,
    /// In seconds from 1970-01-01T00:00:00Z.
    pub this_update: i64,
    /// In seconds from 1970-01-01T00:00:00Z; `None` if it is not there.
    pub next_update: Option<i64>,
    pub ghost early: { IsBeforeYear10000 this_update },
}
