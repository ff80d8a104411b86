//! Where lists are found, and what a list is about (RFC 5280, 4.2.1.13, 5.2.3 and 5.2.5).

use crate::bits::{REASONS, write_bits};
use crate::general::write_general_lines;
use crate::value_fault::{Misplaced, ValueFault, Written};
use asn::{Cursor, INTEGER, SEQUENCE, Tlv};
use cert::bits_of;
use cli_printing::{write_hex, write_octets};
use std::io;
use std::io::Write;

// The most octets of a number that is written in decimal.
const MOST_OCTETS: usize = 8;

// DistributionPointName ::= CHOICE { fullName [0] GeneralNames, nameRelativeToCRLIssuer [1] RelativeDistinguishedName }, under an explicit
// tag
fn write_point_name(explicit: Cursor<'_>, text: &mut Vec<u8>) -> Written {
    let mut members = explicit;
    let name = members.next_or(Misplaced)?;
    match (name.tag, name.inside()) {
        (0xA0, Some(names)) => write_general_lines("  ", names, text)?,
        (0xA1, _) => write_octets("  relative", name.body, text)?,
        _ => return Err(ValueFault::Layout),
    }
    members.ended(Misplaced)?;
    Ok(())
}

// [0] EXPLICIT DistributionPointName OPTIONAL
fn take_point_name(members: &mut Cursor<'_>, text: &mut Vec<u8>) -> Written {
    match members.optional(0xA0) {
        Some(name) => write_point_name(name.members(), text),
        None => Ok(()),
    }
}

// ReasonFlags OPTIONAL, under this tag
fn take_reasons(tag: u8, members: &mut Cursor<'_>, text: &mut Vec<u8>) -> Written {
    if let Some(reasons) = members.optional(tag) {
        write_bits("  reason ", REASONS, bits_of(reasons.body), text)?;
    }
    Ok(())
}

// DistributionPoint ::= SEQUENCE { distributionPoint [0] DistributionPointName OPTIONAL, reasons [1] ReasonFlags OPTIONAL, cRLIssuer [2]
// GeneralNames OPTIONAL }
fn write_point(value: Tlv<'_>, text: &mut Vec<u8>) -> Written {
    value.is_a(SEQUENCE, Misplaced)?;
    let mut members = value.members();
    take_point_name(&mut members, text)?;
    take_reasons(0x81, &mut members, text)?;
    if let Some(issuer) = members.optional(0xA2) {
        write_general_lines("  issuer ", issuer.members(), text)?;
    }
    members.ended(Misplaced)?;
    Ok(())
}

/// CRLDistributionPoints ::= SEQUENCE SIZE (1..MAX) OF DistributionPoint, as FreshestCRL is
pub(crate) fn write_points(value: Tlv<'_>, text: &mut Vec<u8>) -> Written {
    value.is_a(SEQUENCE, Misplaced)?;
    let mut points = value.members();
    points.some(Misplaced)?;
    while let Some(point) = points.next() {
        write_point(point, text)?;
    }
    Ok(())
}

// A BOOLEAN DEFAULT FALSE under this tag: its name, if it is TRUE.
fn take_flag(tag: u8, name: &str, members: &mut Cursor<'_>, text: &mut Vec<u8>) -> Written {
    match members.optional(tag) {
        None => Ok(()),
        Some(flag) if flag.body == [0xFF].as_slice() => {
            writeln!(text, "  {name}")?;
            Ok(())
        }
        Some(_) => Err(ValueFault::Layout),
    }
}

/// IssuingDistributionPoint ::= SEQUENCE { distributionPoint [0] DistributionPointName OPTIONAL, onlyContainsUserCerts [1] BOOLEAN DEFAULT
/// FALSE, onlyContainsCACerts [2] BOOLEAN DEFAULT FALSE, onlySomeReasons [3] ReasonFlags OPTIONAL, indirectCRL [4] BOOLEAN DEFAULT FALSE,
/// onlyContainsAttributeCerts [5] BOOLEAN DEFAULT FALSE }
pub(crate) fn write_issuing_point(value: Tlv<'_>, text: &mut Vec<u8>) -> Written {
    value.is_a(SEQUENCE, Misplaced)?;
    let mut members = value.members();
    take_point_name(&mut members, text)?;
    take_flag(0x81, "onlyContainsUserCerts", &mut members, text)?;
    take_flag(0x82, "onlyContainsCACerts", &mut members, text)?;
    take_reasons(0x83, &mut members, text)?;
    take_flag(0x84, "indirectCRL", &mut members, text)?;
    take_flag(0x85, "onlyContainsAttributeCerts", &mut members, text)?;
    members.ended(Misplaced)?;
    Ok(())
}

// The number of these contents, if it is not negative and has few octets.
fn small_number(contents: &[u8]) -> Option<u64> {
    if contents.len() > MOST_OCTETS || *contents.first()? >= 128 {
        return None;
    }
    let mut number = 0u64;
    for octet in contents {
        number = number.saturating_mul(256).saturating_add(u64::from(*octet));
    }
    Some(number)
}

fn write_decimal(contents: &[u8], text: &mut Vec<u8>) -> io::Result<()> {
    match small_number(contents) {
        Some(number) => write!(text, "{number}"),
        None => {
            text.write_all(b"0x")?;
            write_hex(contents, text)
        }
    }
}

/// CRLNumber ::= INTEGER (0..MAX), as BaseCRLNumber is: in decimal up to eight octets, else in hexadecimal
pub(crate) fn write_number(value: Tlv<'_>, text: &mut Vec<u8>) -> Written {
    value.is_a(INTEGER, Misplaced)?;
    text.write_all(b"  number ")?;
    write_decimal(value.body, text)?;
    text.write_all(b"\n")?;
    Ok(())
}
