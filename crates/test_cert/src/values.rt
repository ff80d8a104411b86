//! Values of extensions, written by hand: what they hold, and the first fault.

use crate::building::{is_refused_in, with_extension};
use asn::{Rule, Tlv, whole};
use cert::{BasicConstraints, CertRule, Certificate, KeyUsage};
use std::test::Fail;

/// The OCTET STRING that the octets are, or that is the second value inside.
pub fn octet_string(octets: &[u8]) -> Result<Tlv<'_>, Fail> {
    let value = whole(octets)?;
    let Some(inside) = value.inside() else {
        return Ok(value);
    };
    let mut members = inside;
    members.next();
    Ok(members.next().ok_or("a second value")?)
}

const KEY_USAGES: &[(&[u8], &[u8], &[u8])] = &[
    (b"\x04\x04\x03\x02\x01\x06", b"\x06", &[5, 6]),
    (b"\x04\x04\x03\x02\x00\x06", b"\x06", &[5, 6]),
    (b"\x04\x03\x03\x01\x00", b"", &[]),
    (b"\x04\x04\x03\x02\x07\x80", b"\x80", &[0]),
    (b"\x04\x04\x03\x02\x00\x80", b"\x80", &[0]),
    (b"\x04\x05\x03\x03\x07\x06\x80", b"\x06\x80", &[5, 6, 8]),
    (b"\x04\x04\x03\x02\x00\x41", b"\x41", &[1, 7]),
    (
        b"\x30\x08\x05\x00\x04\x04\x03\x02\x05\xA0",
        b"\xA0",
        &[0, 2],
    ),
];

#[test]
fn key_usages_are_read(rt: HostRuntime) -> Result<(), Fail> {
    for (row, (octets, bits, set)) in KEY_USAGES.iter().enumerate() {
        let usage = KeyUsage::read(octet_string(octets)?)?;
        assert!(rt; usage.bits == *bits, "at row {row}");
        for bit in 0..=255 {
            let is_so = usage.has(bit) == set.contains(&bit);
            assert!(rt; is_so, "bit {bit} at row {row}");
        }
    }
    Ok(())
}

const REFUSED_KEY_USAGES: &[(&[u8], CertRule, usize, &str)] = &[
    (
        b"\x04\x02\x03\x00",
        CertRule::Der(Rule::Content),
        2,
        "no count of unused bits",
    ),
    (
        b"\x04\x03\x03\x01\x01",
        CertRule::Der(Rule::Content),
        2,
        "an unused bit of none",
    ),
    (
        b"\x04\x04\x03\x02\x01\x07",
        CertRule::Der(Rule::Content),
        2,
        "an unused bit that is set",
    ),
    (b"\x04\x00", CertRule::Der(Rule::Truncated), 2, "nothing"),
    (
        b"\x04\x06\x03\x02\x01\x06\x05\x00",
        CertRule::Der(Rule::Trailing),
        6,
        "two values",
    ),
    (b"\x04\x02\x05\x00", CertRule::ExtensionValue, 2, "NULL"),
    (
        b"\x04\x04\x04\x02\x01\x06",
        CertRule::ExtensionValue,
        2,
        "an OCTET STRING",
    ),
    (
        b"\x30\x06\x05\x00\x04\x02\x05\x00",
        CertRule::ExtensionValue,
        6,
        "NULL, further in",
    ),
    (
        b"\x30\x06\x05\x00\x04\x02\x03\x00",
        CertRule::Der(Rule::Content),
        6,
        "no count, further in",
    ),
];

#[test]
fn other_key_usages_are_refused(rt: HostRuntime) -> Result<(), Fail> {
    for (octets, rule, at, what) in REFUSED_KEY_USAGES.iter() {
        let answer = KeyUsage::read(octet_string(octets)?);
        assert!(rt; answer.err() == Some((*rule, *at)), "{what}");
    }
    Ok(())
}

const BASIC_CONSTRAINTS: &[(&[u8], bool, Option<u32>)] = &[
    (b"\x04\x08\x30\x06\x01\x01\xFF\x02\x01\x00", true, Some(0)),
    (b"\x04\x02\x30\x00", false, None),
    (b"\x04\x05\x30\x03\x01\x01\xFF", true, None),
    (
        b"\x04\x0A\x30\x08\x01\x01\xFF\x02\x03\x01\x00\x00",
        true,
        Some(65_536),
    ),
    (b"\x04\x05\x30\x03\x02\x01\x05", false, Some(5)),
    (b"\x04\x05\x30\x03\x02\x01\x7F", false, Some(127)),
    (b"\x04\x06\x30\x04\x02\x02\x00\x80", false, Some(128)),
    (
        b"\x04\x08\x30\x06\x02\x04\x7F\xFF\xFF\xFF",
        false,
        Some(2_147_483_647),
    ),
    (
        b"\x04\x09\x30\x07\x02\x05\x00\xFF\xFF\xFF\xFE",
        false,
        Some(4_294_967_294),
    ),
    (
        b"\x04\x09\x30\x07\x02\x05\x00\xFF\xFF\xFF\xFF",
        false,
        Some(4_294_967_295),
    ),
    (
        b"\x04\x09\x30\x07\x02\x05\x01\x00\x00\x00\x00",
        false,
        Some(4_294_967_295),
    ),
    (
        b"\x04\x0C\x30\x0A\x02\x08\x01\x00\x00\x00\x00\x00\x00\x07",
        false,
        Some(4_294_967_295),
    ),
    (
        b"\x30\x0C\x05\x00\x04\x08\x30\x06\x01\x01\xFF\x02\x01\x02",
        true,
        Some(2),
    ),
];

#[test]
fn basic_constraints_are_read(rt: HostRuntime) -> Result<(), Fail> {
    for (row, (octets, ca, path_length)) in BASIC_CONSTRAINTS.iter().enumerate() {
        let expected = BasicConstraints {
            ca: *ca,
            path_length: *path_length,
        };
        let answer = BasicConstraints::read(octet_string(octets)?);
        assert!(rt; answer == Ok(expected), "at row {row}");
    }
    Ok(())
}

const REFUSED_BASIC_CONSTRAINTS: &[(&[u8], CertRule, usize, &str)] = &[
    (
        b"\x04\x05\x30\x03\x01\x01\x00",
        CertRule::ExtensionValue,
        4,
        "FALSE",
    ),
    (
        b"\x04\x05\x30\x03\x02\x01\x80",
        CertRule::ExtensionValue,
        4,
        "-128",
    ),
    (
        b"\x04\x08\x30\x06\x01\x01\xFF\x02\x01\xFF",
        CertRule::ExtensionValue,
        7,
        "-1",
    ),
    (
        b"\x04\x0A\x30\x08\x01\x01\xFF\x02\x01\x00\x05\x00",
        CertRule::ExtensionValue,
        10,
        "a value behind the path length",
    ),
    (
        b"\x04\x08\x30\x06\x02\x01\x00\x01\x01\xFF",
        CertRule::ExtensionValue,
        7,
        "the path length first",
    ),
    (
        b"\x04\x08\x30\x06\x02\x01\x00\x02\x01\x00",
        CertRule::ExtensionValue,
        7,
        "two path lengths",
    ),
    (
        b"\x04\x08\x30\x06\x01\x01\xFF\x01\x01\xFF",
        CertRule::ExtensionValue,
        7,
        "TRUE twice",
    ),
    (
        b"\x04\x0A\x30\x08\x02\x01\x80\x05\x00\x01\x01\xFF",
        CertRule::ExtensionValue,
        4,
        "negative before left over",
    ),
    (
        b"\x04\x04\x30\x02\x05\x00",
        CertRule::ExtensionValue,
        4,
        "NULL inside",
    ),
    (b"\x04\x02\x31\x00", CertRule::ExtensionValue, 2, "a SET"),
    (
        b"\x04\x03\x01\x01\xFF",
        CertRule::ExtensionValue,
        2,
        "a BOOLEAN alone",
    ),
    (b"\x04\x00", CertRule::Der(Rule::Truncated), 2, "nothing"),
    (
        b"\x04\x04\x30\x00\x05\x00",
        CertRule::Der(Rule::Trailing),
        4,
        "two values",
    ),
    (
        b"\x04\x05\x30\x03\x01\x01\x01",
        CertRule::Der(Rule::Content),
        4,
        "TRUE that is not FF",
    ),
    (
        b"\x04\x06\x30\x04\x02\x02\x00\x7F",
        CertRule::Der(Rule::Content),
        4,
        "an octet too many",
    ),
    (
        b"\x30\x09\x05\x00\x04\x05\x30\x03\x01\x01\x00",
        CertRule::ExtensionValue,
        8,
        "FALSE, further in",
    ),
    (
        b"\x30\x09\x05\x00\x04\x05\x30\x03\x02\x01\x80",
        CertRule::ExtensionValue,
        8,
        "-128, further in",
    ),
];

#[test]
fn other_basic_constraints_are_refused(rt: HostRuntime) -> Result<(), Fail> {
    for (octets, rule, at, what) in REFUSED_BASIC_CONSTRAINTS.iter() {
        let answer = BasicConstraints::read(octet_string(octets)?);
        assert!(rt; answer.err() == Some((*rule, *at)), "{what}");
    }
    Ok(())
}

/// extKeyUsage
const PURPOSES_TYPE: &[u8] = &[0x55, 0x1D, 0x25];

/// Values of extKeyUsage, and the contents of its purposes.
const PURPOSES: &[(&[u8], &[&[u8]])] = &[
    (
        b"\x04\x0C\x30\x0A\x06\x08\x2B\x06\x01\x05\x05\x07\x03\x01",
        &[b"\x2B\x06\x01\x05\x05\x07\x03\x01"],
    ),
    (
        b"\x04\x0B\x30\x09\x06\x01\x2A\x06\x01\x2B\x06\x01\x2A",
        &[b"\x2A", b"\x2B", b"\x2A"],
    ),
];

#[test]
fn purposes_are_read_in_order(rt: HostRuntime) -> Result<(), Fail> {
    for (octets, contents) in PURPOSES.iter() {
        let certificate = with_extension(rt.alloc(), PURPOSES_TYPE, octets)?;
        let read = Certificate::read(rt.alloc(), &certificate).map_err(|_| "a certificate")?;
        let found = &read.extensions.purposes;
        let are_so = found.len() == contents.len()
            && found
                .iter()
                .zip(contents.iter())
                .all(|(oid, wanted)| oid.is(wanted));
        assert!(rt; are_so, "{octets:?}");
    }
    Ok(())
}

const REFUSED_PURPOSES: &[(&[u8], CertRule, usize, &str)] = &[
    (b"\x04\x02\x30\x00", CertRule::ExtensionValue, 4, "none"),
    (
        b"\x04\x04\x30\x02\x05\x00",
        CertRule::ExtensionValue,
        4,
        "NULL inside",
    ),
    (
        b"\x04\x07\x30\x05\x06\x01\x2A\x05\x00",
        CertRule::ExtensionValue,
        7,
        "NULL behind a purpose",
    ),
    (
        b"\x04\x05\x31\x03\x06\x01\x2A",
        CertRule::ExtensionValue,
        2,
        "a SET",
    ),
    (
        b"\x04\x03\x06\x01\x2A",
        CertRule::ExtensionValue,
        2,
        "a purpose alone",
    ),
    (b"\x04\x00", CertRule::Der(Rule::Truncated), 2, "nothing"),
    (
        b"\x04\x04\x30\x00\x05\x00",
        CertRule::Der(Rule::Trailing),
        4,
        "two values",
    ),
    (
        b"\x04\x04\x30\x02\x06\x00",
        CertRule::Der(Rule::Content),
        4,
        "an OBJECT IDENTIFIER of no octets",
    ),
    (
        b"\x30\x0B\x05\x00\x04\x07\x30\x05\x06\x01\x2A\x05\x00",
        CertRule::ExtensionValue,
        11,
        "NULL behind a purpose, further in",
    ),
];

#[test]
fn other_purposes_are_refused(rt: HostRuntime) -> Result<(), Fail> {
    for (octets, rule, at, what) in REFUSED_PURPOSES.iter() {
        let is_so = is_refused_in(rt.alloc(), PURPOSES_TYPE, octets, *rule, *at)?;
        assert!(rt; is_so, "{what}");
    }
    Ok(())
}
