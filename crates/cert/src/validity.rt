//! The times between which a certificate holds (RFC 5280, 4.1.2.5).

ghost use Rattle.asn.specs.Reading.{seen_tlv, Gives};
ghost use Rattle.cert.specs.Validity.{validity, seen_validity};

use crate::fault::{CertRefusal, CertRule};
use asn::{SEQUENCE, Tlv};

/// Validity ::= SEQUENCE { notBefore Time, notAfter Time }, each in seconds from 1970-01-01T00:00:00Z
#[derive(Clone, Copy, Debug, PartialEq, Eq)]
pub struct Validity {
    pub not_before: i64,
    pub not_after: i64,
}

impl Validity {
    /// Reads the two times; else the first fault: `Layout` at a value with a wrong identifier or left over, or at the end of this one if a
    /// time is missing, and `Time` at a value that is no time. That the first is not after the second is not looked at.
    #[tactic(auto, unfolding(crate::specs::Validity::validity))]
    pub fn read(value: Tlv<'_>) -> Result<Validity, CertRefusal>
        ensures { Gives seen_validity result (validity (seen_tlv value.entry)) }
    {
        value.is_a(SEQUENCE, CertRule::Layout)?;
        let mut members = value.members();
        let not_before = members.time(CertRule::Layout, CertRule::Time)?;
        let not_after = members.time(CertRule::Layout, CertRule::Time)?;
        members.ended(CertRule::Layout)?;
        Ok(Validity {
            not_before,
            not_after,
        })
    }
}
