//! Extensions, in the order in which they stand (RFC 5280, 4.2 and 5.2).

use crate::access::write_access;
use crate::constraints::{
    write_basic_constraints, write_key_usage, write_name_constraints, write_purposes,
};
use crate::distribution::{write_issuing_point, write_number, write_points};
use crate::general::write_general_lines;
use crate::key_identifiers::{write_authority_key, write_subject_key};
use crate::named_oid::{EXTENSIONS, write_named_oid};
use crate::policies::write_policies;
use crate::value_fault::{Misplaced, Written, or_octets};
use asn::{Cursor, SEQUENCE, Tlv};
use cert::{Extension, certificate_extension_number};
use cli_printing::write_octets;
use std::alloc::Global;
use std::io;
use std::io::Write;

// id-pe-authorityInfoAccess: 1.3.6.1.5.5.7.1.1
const AUTHORITY_ACCESS: &[u8] = &[0x2B, 0x06, 0x01, 0x05, 0x05, 0x07, 0x01, 0x01];

// id-pe-subjectInfoAccess: 1.3.6.1.5.5.7.1.11
const SUBJECT_ACCESS: &[u8] = &[0x2B, 0x06, 0x01, 0x05, 0x05, 0x07, 0x01, 0x0B];

// SubjectAltName ::= GeneralNames, as IssuerAltName is
fn write_alternative_names(value: Tlv<'_>, text: &mut Vec<u8>) -> Written {
    value.is_a(SEQUENCE, Misplaced)?;
    write_general_lines("  ", value.members(), text)
}

// An extension of a type that is not under id-ce, or of one that is not known.
fn write_other(oid: &[u8], octet_string: Tlv<'_>, text: &mut Vec<u8>) -> Written {
    if oid == AUTHORITY_ACCESS || oid == SUBJECT_ACCESS {
        return write_access(octet_string.nested()?, text);
    }
    write_octets("  octets", octet_string.body, text)?;
    Ok(())
}

// The lines of what the extension says.
fn write_value(alloc: Global, extension: &Extension<'_>, text: &mut Vec<u8>) -> Written {
    let oid = extension.oid.contents();
    let octet_string = extension.value;
    match certificate_extension_number(oid) {
        Some(14) => write_subject_key(octet_string.nested()?, text),
        Some(15) => write_key_usage(octet_string, text),
        Some(17 | 18) => write_alternative_names(octet_string.nested()?, text),
        Some(19) => write_basic_constraints(octet_string, text),
        Some(20 | 27) => write_number(octet_string.nested()?, text),
        Some(28) => write_issuing_point(octet_string.nested()?, text),
        Some(30) => write_name_constraints(alloc, octet_string, text),
        Some(31 | 46) => write_points(octet_string.nested()?, text),
        Some(32) => write_policies(octet_string.nested()?, text),
        Some(35) => write_authority_key(octet_string.nested()?, text),
        Some(37) => write_purposes(octet_string.nested()?, text),
        _ => write_other(oid, octet_string, text),
    }
}

fn write_title(extension: &Extension<'_>, text: &mut Vec<u8>) -> io::Result<()> {
    text.write_all(b"extension ")?;
    write_named_oid(EXTENSIONS, extension.oid.contents(), text)?;
    match extension.critical {
        true => text.write_all(b" critical\n"),
        false => text.write_all(b"\n"),
    }
}

fn write_extension(alloc: Global, value: Tlv<'_>, text: &mut Vec<u8>) -> io::Result<()> {
    match Extension::read(value, Misplaced) {
        Ok(extension) => {
            write_title(&extension, text)?;
            let start = text.len();
            let written = write_value(alloc, &extension, text);
            or_octets(written, "  unreadable", extension.value.body, start, text)
        }
        Err(_) => write_octets("extension unreadable", value.whole, text),
    }
}

fn write_list(alloc: Global, list: Cursor<'_>, text: &mut Vec<u8>) -> io::Result<()> {
    let mut extensions = list;
    while let Some(value) = extensions.next() {
        write_extension(alloc, value, text)?;
    }
    Ok(())
}

// EXPLICIT Extensions: the values in it
fn list_in(explicit: Tlv<'_>) -> Option<Cursor<'_>> {
    explicit.inside()?.next()?.inside()
}

/// The lines of the extensions under the explicit tag, if there are any.
pub(crate) fn write_extensions(
    alloc: Global,
    explicit: Option<Tlv<'_>>,
    text: &mut Vec<u8>,
) -> io::Result<()> {
    let Some(explicit) = explicit else {
        return Ok(());
    };
    match list_in(explicit) {
        Some(list) => write_list(alloc, list, text),
        None => write_octets("extension unreadable", explicit.whole, text),
    }
}

/// The next of the values that has this identifier octet; others before it are passed over.
pub(crate) fn next_with<'a>(tag: u8, members: &mut Cursor<'a>) -> Option<Tlv<'a>> {
    while let Some(value) = members.next() {
        if value.tag == tag {
            return Some(value);
        }
    }
    None
}

/// The first of the values inside that has this identifier octet.
pub(crate) fn first_with(tag: u8, value: Tlv<'_>) -> Option<Tlv<'_>> {
    next_with(tag, &mut value.inside()?)
}
