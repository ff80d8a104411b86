//! Where to ask about a certificate or its issuer (RFC 5280, 4.2.2).

use crate::general::write_general;
use crate::named_oid::{ACCESS_METHODS, write_named_oid};
use crate::text::write_text;
use crate::value_fault::{Misplaced, Written};
use asn::{OBJECT_IDENTIFIER, SEQUENCE, Tlv};
use names::General;
use std::io;
use std::io::Write;

// A URI as it is, and another name behind the word of its form.
fn write_location(location: &General<'_>, text: &mut Vec<u8>) -> io::Result<()> {
    match location {
        General::Other(6, uri) => write_text(uri, text),
        _ => write_general(location, text),
    }
}

// AccessDescription ::= SEQUENCE { accessMethod OBJECT IDENTIFIER, accessLocation GeneralName }
fn write_description(value: Tlv<'_>, text: &mut Vec<u8>) -> Written {
    value.is_a(SEQUENCE, Misplaced)?;
    let mut members = value.members();
    let method = members.required(OBJECT_IDENTIFIER, Misplaced)?;
    let location = General::read(members.next_or(Misplaced)?)?;
    members.ended(Misplaced)?;
    text.write_all(b"  ")?;
    write_named_oid(ACCESS_METHODS, method.body, text)?;
    text.write_all(b" ")?;
    write_location(&location, text)?;
    text.write_all(b"\n")?;
    Ok(())
}

/// AuthorityInfoAccessSyntax ::= SEQUENCE SIZE (1..MAX) OF AccessDescription, as SubjectInfoAccessSyntax is
pub(crate) fn write_access(value: Tlv<'_>, text: &mut Vec<u8>) -> Written {
    value.is_a(SEQUENCE, Misplaced)?;
    let mut descriptions = value.members();
    descriptions.some(Misplaced)?;
    while let Some(description) = descriptions.next() {
        write_description(description, text)?;
    }
    Ok(())
}
