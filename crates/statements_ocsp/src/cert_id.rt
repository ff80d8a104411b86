//! Which certificate a single response is about (RFC 6960, 4.1.1).

ghost use Rattle.asn.specs.Reading.{seen_tlv, Gives};
ghost use Rattle.statements_ocsp.specs.CertificateId.{cert_id, seen_id};

use asn::{OCTET_STRING, SEQUENCE, Tlv};
use statements_parts::{StatementRefusal, StatementRule, take_algorithm, take_serial};

/// CertID ::= SEQUENCE { hashAlgorithm AlgorithmIdentifier, issuerNameHash OCTET STRING, issuerKeyHash OCTET STRING, serialNumber
/// CertificateSerialNumber }
#[derive(Clone, Copy, Debug, PartialEq, Eq)]
pub struct CertId<'a> {
    /// The contents of the hash algorithm's OBJECT IDENTIFIER. Its parameters are not looked at.
    pub hash_algorithm: &'a [u8],
    /// The hash of the issuer's name, of any length.
    pub issuer_name_hash: &'a [u8],
    /// The hash of the issuer's key, of any length.
    pub issuer_key_hash: &'a [u8],
    /// The contents of serialNumber: 1 to 32 octets, of any sign.
    pub serial: &'a [u8],
}

impl<'a> CertId<'a> {
    /// The CertID that the value is, or the first fault.
    #[tactic(auto, unfolding(crate::specs::CertificateId::cert_id))]
    pub(crate) fn read(value: Tlv<'a>) -> Result<CertId<'a>, StatementRefusal>
        ensures { Gives seen_id result (cert_id (seen_tlv value.entry)) }
    {
        value.is_a(SEQUENCE, StatementRule::Layout)?;
        let mut members = value.members();
        let algorithm = take_algorithm(&mut members)?;
        let name_hash = members.required(OCTET_STRING, StatementRule::Layout)?;
        let key_hash = members.required(OCTET_STRING, StatementRule::Layout)?;
        let serial = take_serial(&mut members)?;
        members.ended(StatementRule::Layout)?;
        Ok(CertId {
            hash_algorithm: algorithm.oid.contents(),
            issuer_name_hash: name_hash.body,
            issuer_key_hash: key_hash.body,
            serial,
        })
    }
}
