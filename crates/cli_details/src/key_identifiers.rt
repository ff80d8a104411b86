//! Which key a certificate holds, and which key signed it (RFC 5280, 4.2.1.1 and 4.2.1.2).

use crate::general::write_general_lines;
use crate::value_fault::{Misplaced, Written};
use asn::{OCTET_STRING, SEQUENCE, Tlv};
use cli_printing::write_octets;

/// SubjectKeyIdentifier ::= KeyIdentifier ::= OCTET STRING
pub(crate) fn write_subject_key(value: Tlv<'_>, text: &mut Vec<u8>) -> Written {
    value.is_a(OCTET_STRING, Misplaced)?;
    write_octets("  key", value.body, text)?;
    Ok(())
}

/// AuthorityKeyIdentifier ::= SEQUENCE { keyIdentifier [0] KeyIdentifier OPTIONAL, authorityCertIssuer [1] GeneralNames OPTIONAL,
/// authorityCertSerialNumber [2] CertificateSerialNumber OPTIONAL }
pub(crate) fn write_authority_key(value: Tlv<'_>, text: &mut Vec<u8>) -> Written {
    value.is_a(SEQUENCE, Misplaced)?;
    let mut members = value.members();
    if let Some(key) = members.optional(0x80) {
        write_octets("  key", key.body, text)?;
    }
    if let Some(issuer) = members.optional(0xA1) {
        write_general_lines("  issuer ", issuer.members(), text)?;
    }
    if let Some(serial) = members.optional(0x82) {
        write_octets("  serial", serial.body, text)?;
    }
    members.ended(Misplaced)?;
    Ok(())
}
