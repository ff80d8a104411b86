//! Under which policies a certificate was issued (RFC 5280, 4.2.1.4).

use crate::text::write_text;
use crate::value_fault::{Misplaced, Written};
use asn::{Cursor, IA5_STRING, OBJECT_IDENTIFIER, SEQUENCE, Tlv};
use cli_printing::{write_contents, write_oid};
use std::io;
use std::io::Write;

// id-qt-cps: 1.3.6.1.5.5.7.2.1
const CPS: &[u8] = &[0x2B, 0x06, 0x01, 0x05, 0x05, 0x07, 0x02, 0x01];

// The URI of a practice statement, or another qualifier: its type, and the whole encoding of its value.
fn write_qualifier_line(kind: &[u8], value: Tlv<'_>, text: &mut Vec<u8>) -> io::Result<()> {
    if kind == CPS && value.tag == IA5_STRING {
        text.write_all(b"  cps ")?;
        write_text(value.body, text)?;
    } else {
        text.write_all(b"  qualifier ")?;
        write_oid(kind, text)?;
        write_contents(value.whole, text)?;
    }
    text.write_all(b"\n")
}

// PolicyQualifierInfo ::= SEQUENCE { policyQualifierId OBJECT IDENTIFIER, qualifier ANY DEFINED BY policyQualifierId }
fn write_qualifier(value: Tlv<'_>, text: &mut Vec<u8>) -> Written {
    value.is_a(SEQUENCE, Misplaced)?;
    let mut members = value.members();
    let kind = members.required(OBJECT_IDENTIFIER, Misplaced)?;
    let qualifier = members.next_or(Misplaced)?;
    members.ended(Misplaced)?;
    write_qualifier_line(kind.body, qualifier, text)?;
    Ok(())
}

fn write_qualifiers(list: Cursor<'_>, text: &mut Vec<u8>) -> Written {
    list.some(Misplaced)?;
    let mut qualifiers = list;
    while let Some(qualifier) = qualifiers.next() {
        write_qualifier(qualifier, text)?;
    }
    Ok(())
}

// PolicyInformation ::= SEQUENCE { policyIdentifier OBJECT IDENTIFIER, policyQualifiers SEQUENCE SIZE (1..MAX) OF PolicyQualifierInfo
// OPTIONAL }
//
// A line, and one for each qualifier.
fn write_policy(value: Tlv<'_>, text: &mut Vec<u8>) -> Written {
    value.is_a(SEQUENCE, Misplaced)?;
    let mut members = value.members();
    let policy = members.required(OBJECT_IDENTIFIER, Misplaced)?;
    text.write_all(b"  policy ")?;
    write_oid(policy.body, text)?;
    text.write_all(b"\n")?;
    if let Some(qualifiers) = members.optional(SEQUENCE) {
        write_qualifiers(qualifiers.members(), text)?;
    }
    members.ended(Misplaced)?;
    Ok(())
}

/// CertificatePolicies ::= SEQUENCE SIZE (1..MAX) OF PolicyInformation
pub(crate) fn write_policies(value: Tlv<'_>, text: &mut Vec<u8>) -> Written {
    value.is_a(SEQUENCE, Misplaced)?;
    let mut policies = value.members();
    policies.some(Misplaced)?;
    while let Some(policy) = policies.next() {
        write_policy(policy, text)?;
    }
    Ok(())
}
