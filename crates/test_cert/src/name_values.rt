//! Values of extensions that hold names, written by hand: what they hold, the first fault, and the limits.

use crate::building::{is_refused_in, push_value, with_extension};
use crate::values::octet_string;
use asn::Rule;
use cert::{CertFault, CertRule, Certificate, NameConstraints};
use names::{Form, General, NameRule, Subtree};
use std::alloc::{AllocError, Global};
use std::test::Fail;

/// subjectAltName
const NAMES_TYPE: &[u8] = &[0x55, 0x1D, 0x11];

/// The contents of a name that is no directory name.
fn contents_of<'a>(name: &General<'a>) -> Option<&'a [u8]> {
    match name {
        General::Directory(_) => None,
        General::Dns(octets) | General::Ip(octets) | General::Other(_, octets) => Some(octets),
    }
}

/// The names in the value below.
const NAMES: &[(Form, Option<&[u8]>)] = &[
    (Form::Dns, Some(b"a.b")),
    (Form::Ip, Some(b"\xC0\x00\x02\x01")),
    (Form::Other(6), Some(b"x")),
    (Form::Directory, None),
];

#[test]
fn alternative_names_are_read_in_order(rt: HostRuntime) -> Result<(), Fail> {
    let octets =
        b"\x30\x18\x05\x00\x04\x14\x30\x12\x82\x03a.b\x87\x04\xC0\x00\x02\x01\x86\x01x\xA4\x02\x30\x00";
    let certificate = with_extension(rt.alloc(), NAMES_TYPE, octets)?;
    let read = Certificate::read(rt.alloc(), &certificate).map_err(|_| "a certificate")?;
    let found = &read.extensions.alternative_names;
    assert!(rt; found.len() == NAMES.len(), "how many");
    for (name, (form, contents)) in found.iter().zip(NAMES.iter()) {
        let is_so = name.form() == *form && contents_of(name) == *contents;
        assert!(rt; is_so, "{form:?}");
    }
    Ok(())
}

const REFUSED_ALTERNATIVE_NAMES: &[(&[u8], CertRule, usize, &str)] = &[
    (
        b"\x04\x08\x30\x06\x82\x04a..b",
        CertRule::Name(NameRule::DnsForm),
        4,
        "an empty label",
    ),
    (
        b"\x04\x09\x30\x07\x87\x05\x01\x02\x03\x04\x05",
        CertRule::Name(NameRule::IpForm),
        4,
        "an address of 5 octets",
    ),
    (b"\x04\x02\x30\x00", CertRule::ExtensionValue, 4, "none"),
    (
        b"\x04\x04\x30\x02\x05\x00",
        CertRule::Name(NameRule::NameLayout),
        4,
        "NULL",
    ),
    (
        b"\x04\x04\x30\x02\x84\x00",
        CertRule::Name(NameRule::NameLayout),
        4,
        "a primitive directoryName",
    ),
    (
        b"\x04\x07\x30\x05\x86\x01x\x05\x00",
        CertRule::Name(NameRule::NameLayout),
        7,
        "NULL behind a name",
    ),
    (
        b"\x04\x06\x30\x04\xA4\x02\x05\x00",
        CertRule::Name(NameRule::NameLayout),
        6,
        "NULL in a directoryName",
    ),
    (
        b"\x04\x0C\x30\x0A\x82\x04a..b\x87\x02\x01\x02",
        CertRule::Name(NameRule::DnsForm),
        4,
        "two faults",
    ),
    (
        b"\x04\x03\x86\x01x",
        CertRule::ExtensionValue,
        2,
        "a name alone",
    ),
    (
        b"\x04\x05\x31\x03\x86\x01x",
        CertRule::ExtensionValue,
        2,
        "a SET",
    ),
    (b"\x04\x00", CertRule::Der(Rule::Truncated), 2, "nothing"),
    (
        b"\x04\x07\x30\x03\x86\x01x\x05\x00",
        CertRule::Der(Rule::Trailing),
        7,
        "two values",
    ),
    (
        b"\x30\x0C\x05\x00\x04\x08\x30\x06\x82\x04a..b",
        CertRule::Name(NameRule::DnsForm),
        8,
        "an empty label, further in",
    ),
    (
        b"\x30\x0A\x05\x00\x04\x06\x30\x04\xA4\x02\x05\x00",
        CertRule::Name(NameRule::NameLayout),
        10,
        "NULL in a directoryName, further in",
    ),
];

#[test]
fn other_alternative_names_are_refused(rt: HostRuntime) -> Result<(), Fail> {
    for (octets, rule, at, what) in REFUSED_ALTERNATIVE_NAMES.iter() {
        let is_so = is_refused_in(rt.alloc(), NAMES_TYPE, octets, *rule, *at)?;
        assert!(rt; is_so, "{what}");
    }
    Ok(())
}

/// A value with the contents.
fn value_of(alloc: Global, identifier: u8, contents: &[u8]) -> Result<Vec<u8>, AllocError> {
    let mut value = Vec::new(alloc);
    push_value(&mut value, identifier, contents)?;
    Ok(value)
}

/// So many times the piece, and then the last one.
fn repeated(alloc: Global, piece: &[u8], count: usize, last: &[u8]) -> Result<Vec<u8>, AllocError> {
    let mut all = Vec::new(alloc);
    for _ in 0..count {
        all.extend_from_slice(piece)?;
    }
    all.extend_from_slice(last)?;
    Ok(all)
}

const COUNTS_OF_NAMES: &[(usize, &[u8], Option<(CertRule, usize)>, &str)] = &[
    (4096, b"", None, "4,096 names"),
    (
        4096,
        b"\x86\x01x",
        Some((CertRule::Limit, 12_296)),
        "4,097 names",
    ),
    (
        4096,
        b"\x82\x04a..b",
        Some((CertRule::Limit, 12_296)),
        "the limit before a name's own fault",
    ),
    (
        4096,
        b"\x05\x00",
        Some((CertRule::Name(NameRule::NameLayout), 12_296)),
        "a wrong identifier before the limit",
    ),
    (
        4095,
        b"\x82\x04a..b",
        Some((CertRule::Name(NameRule::DnsForm), 12_293)),
        "a fault in the 4,096th",
    ),
];

/// A name takes 3 octets here, and the first stands at 8.
#[test]
fn alternative_names_have_a_limit(rt: HostRuntime) -> Result<(), Fail> {
    for (count, last, expected, what) in COUNTS_OF_NAMES.iter() {
        let names = repeated(rt.alloc(), b"\x86\x01x", *count, last)?;
        let list = value_of(rt.alloc(), 0x30, &names)?;
        let octets = value_of(rt.alloc(), 0x04, &list)?;
        let is_so = match expected {
            None => {
                let certificate = with_extension(rt.alloc(), NAMES_TYPE, &octets)?;
                let read = Certificate::read(rt.alloc(), &certificate).map_err(|_| *what)?;
                read.extensions.alternative_names.len() == 4096
            }
            Some((rule, at)) => is_refused_in(rt.alloc(), NAMES_TYPE, &octets, *rule, *at)?,
        };
        assert!(rt; is_so, "{what}");
    }
    Ok(())
}

const NAME_CONSTRAINTS: &[(&[u8], &[Form], &[Form])] = &[
    (b"\x04\x02\x30\x00", &[], &[]),
    (
        b"\x04\x09\x30\x07\xA0\x05\x30\x03\x82\x01a",
        &[Form::Dns],
        &[],
    ),
    (
        b"\x04\x10\x30\x0E\xA1\x0C\x30\x0A\x87\x08\x0A\x00\x00\x00\xFF\x00\x00\x00",
        &[],
        &[Form::Ip],
    ),
    (
        b"\x04\x18\x30\x16\xA0\x0B\x30\x03\x82\x01a\x30\x04\xA4\x02\x30\x00\xA1\x07\x30\x05\x86\x03.ab",
        &[Form::Dns, Form::Directory],
        &[Form::Other(6)],
    ),
    (
        b"\x30\x0C\x05\x00\x04\x08\x30\x06\xA0\x04\x30\x02\x82\x00",
        &[Form::Dns],
        &[],
    ),
];

#[test]
fn name_constraints_are_read(rt: HostRuntime) -> Result<(), Fail> {
    for (row, (octets, permitted, excluded)) in NAME_CONSTRAINTS.iter().enumerate() {
        let found = NameConstraints::read(rt.alloc(), octet_string(octets)?)?;
        let are_so = have_forms(&found.permitted, permitted)
            && have_forms(&found.excluded, excluded);
        assert!(rt; are_so, "at row {row}");
    }
    Ok(())
}

/// Whether the subtrees are of these forms.
fn have_forms(subtrees: &[Subtree<'_>], forms: &[Form]) -> bool {
    subtrees.len() == forms.len()
        && subtrees
            .iter()
            .zip(forms)
            .all(|(subtree, form)| subtree.has_form(*form))
}

const REFUSED_NAME_CONSTRAINTS: &[(&[u8], CertRule, usize, &str)] = &[
    (
        b"\x04\x04\x30\x02\xA0\x00",
        CertRule::ExtensionValue,
        6,
        "none permitted",
    ),
    (
        b"\x04\x04\x30\x02\xA1\x00",
        CertRule::ExtensionValue,
        6,
        "none excluded",
    ),
    (
        b"\x04\x06\x30\x04\xA0\x02\x30\x00",
        CertRule::ExtensionValue,
        8,
        "no base",
    ),
    (
        b"\x04\x0C\x30\x0A\xA0\x08\x30\x06\x82\x01a\x80\x01\x00",
        CertRule::SubtreeBounds,
        11,
        "a minimum",
    ),
    (
        b"\x04\x0C\x30\x0A\xA1\x08\x30\x06\x82\x01a\x81\x01\x05",
        CertRule::SubtreeBounds,
        11,
        "a maximum",
    ),
    (
        b"\x04\x0E\x30\x0C\xA0\x0A\x30\x08\x82\x01a\x80\x01\x00\x05\x00",
        CertRule::SubtreeBounds,
        11,
        "a minimum and NULL",
    ),
    (
        b"\x04\x0B\x30\x09\xA0\x07\x30\x05\x82\x01a\x05\x00",
        CertRule::ExtensionValue,
        11,
        "NULL behind the base",
    ),
    (
        b"\x04\x0E\x30\x0C\xA0\x0A\x30\x08\x82\x01a\x05\x00\x80\x01\x00",
        CertRule::ExtensionValue,
        11,
        "NULL before a minimum",
    ),
    (
        b"\x04\x08\x30\x06\xA0\x04\x30\x02\x05\x00",
        CertRule::Name(NameRule::NameLayout),
        8,
        "NULL for the base",
    ),
    (
        b"\x04\x09\x30\x07\xA0\x05\x30\x03\x80\x01\x00",
        CertRule::Name(NameRule::NameLayout),
        8,
        "a minimum for the base",
    ),
    (
        b"\x04\x0F\x30\x0D\xA0\x0B\x30\x09\x87\x07\x0A\x00\x00\xFF\x00\x00\x00",
        CertRule::Name(NameRule::IpForm),
        8,
        "an address base of 7 octets",
    ),
    (
        b"\x04\x10\x30\x0E\xA0\x0C\x30\x0A\x87\x08\x0A\x00\x00\x00\xFF\x00\xFF\x00",
        CertRule::Name(NameRule::MaskForm),
        8,
        "a mask with a hole",
    ),
    (
        b"\x04\x09\x30\x07\xA0\x05\x30\x03\x82\x01.",
        CertRule::Name(NameRule::DnsForm),
        8,
        "a dot",
    ),
    (
        b"\x04\x0C\x30\x0A\xA0\x08\x30\x06\x82\x01.\x80\x01\x00",
        CertRule::Name(NameRule::DnsForm),
        8,
        "a dot and a minimum",
    ),
    (
        b"\x04\x0A\x30\x08\xA0\x06\x30\x04\xA4\x02\x05\x00",
        CertRule::Name(NameRule::NameLayout),
        10,
        "NULL in a directory base",
    ),
    (
        b"\x04\x07\x30\x05\xA0\x03\x82\x01a",
        CertRule::ExtensionValue,
        6,
        "a base that is no subtree",
    ),
    (
        b"\x04\x10\x30\x0E\xA1\x05\x30\x03\x82\x01a\xA0\x05\x30\x03\x82\x01a",
        CertRule::ExtensionValue,
        11,
        "the excluded first",
    ),
    (
        b"\x04\x12\x30\x10\xA0\x05\x30\x03\x82\x01a\xA1\x05\x30\x03\x82\x01b\x05\x00",
        CertRule::ExtensionValue,
        18,
        "NULL behind both",
    ),
    (
        b"\x04\x04\x30\x02\xA2\x00",
        CertRule::ExtensionValue,
        4,
        "another list",
    ),
    (b"\x04\x02\x31\x00", CertRule::ExtensionValue, 2, "a SET"),
    (
        b"\x04\x07\xA0\x05\x30\x03\x82\x01a",
        CertRule::ExtensionValue,
        2,
        "a list alone",
    ),
    (b"\x04\x00", CertRule::Der(Rule::Truncated), 2, "nothing"),
    (
        b"\x04\x04\x30\x00\x05\x00",
        CertRule::Der(Rule::Trailing),
        4,
        "two values",
    ),
    (
        b"\x30\x10\x05\x00\x04\x0C\x30\x0A\xA0\x08\x30\x06\x82\x01a\x80\x01\x00",
        CertRule::SubtreeBounds,
        15,
        "a minimum, further in",
    ),
];

#[test]
fn other_name_constraints_are_refused(rt: HostRuntime) -> Result<(), Fail> {
    for (octets, rule, at, what) in REFUSED_NAME_CONSTRAINTS.iter() {
        let answer = NameConstraints::read(rt.alloc(), octet_string(octets)?);
        let is_so = answer.err() == Some(CertFault::Refused(*rule, *at));
        assert!(rt; is_so, "{what}");
    }
    Ok(())
}

const SUBTREE: &[u8] = b"\x30\x03\x82\x01a";

/// nameConstraints of so many subtrees permitted and excluded, and a last one excluded.
fn constraints_of(
    alloc: Global,
    permitted: usize,
    excluded: usize,
    last: &[u8],
) -> Result<Vec<u8>, AllocError> {
    let mut lists = Vec::new(alloc);
    if permitted > 0 {
        let subtrees = repeated(alloc, SUBTREE, permitted, b"")?;
        lists.extend_from_slice(&value_of(alloc, 0xA0, &subtrees)?)?;
    }
    let subtrees = repeated(alloc, SUBTREE, excluded, last)?;
    if !subtrees.is_empty() {
        lists.extend_from_slice(&value_of(alloc, 0xA1, &subtrees)?)?;
    }
    value_of(alloc, 0x04, &value_of(alloc, 0x30, &lists)?)
}

const COUNTS_OF_SUBTREES: &[(usize, usize, &[u8], Option<(CertRule, usize)>, &str)] = &[
    (2048, 2048, b"", None, "4,096 in both"),
    (4096, 0, b"", None, "4,096 permitted"),
    (0, 4096, b"", None, "4,096 excluded"),
    (
        2048,
        2049,
        b"",
        Some((CertRule::Limit, 20_496)),
        "4,097 in both",
    ),
    (
        4097,
        0,
        b"",
        Some((CertRule::Limit, 20_492)),
        "4,097 permitted",
    ),
    (
        0,
        4097,
        b"",
        Some((CertRule::Limit, 20_492)),
        "4,097 excluded",
    ),
    (
        4096,
        1,
        b"",
        Some((CertRule::Limit, 20_494)),
        "one excluded behind 4,096 permitted",
    ),
    (
        1,
        4095,
        b"\x30\x00",
        Some((CertRule::Limit, 20_494)),
        "the limit before a missing base",
    ),
    (
        1,
        4095,
        b"\x05\x00",
        Some((CertRule::ExtensionValue, 20_494)),
        "a wrong identifier before the limit",
    ),
    (
        1,
        4094,
        b"\x30\x00",
        Some((CertRule::ExtensionValue, 20_491)),
        "no base in the 4,096th",
    ),
];

/// A subtree takes 5 octets here, and the first list begins at 8. A list takes 2 octets more where it has one subtree, and 4
/// where it has more.
#[test]
fn subtrees_have_a_limit(rt: HostRuntime) -> Result<(), Fail> {
    for (permitted, excluded, last, expected, what) in COUNTS_OF_SUBTREES.iter() {
        let octets = constraints_of(rt.alloc(), *permitted, *excluded, last)?;
        let is_so = match (
            NameConstraints::read(rt.alloc(), octet_string(&octets)?),
            *expected,
        ) {
            (Ok(found), None) => {
                found.permitted.len() == *permitted && found.excluded.len() == *excluded
            }
            (Err(fault), Some((rule, at))) => fault == CertFault::Refused(rule, at),
            _ => false,
        };
        assert!(rt; is_so, "{what}");
    }
    Ok(())
}

/// If an allocation is refused, the answer is that memory ran out, and otherwise what the octets hold.
#[test]
fn wants_memory_or_answers(rt: HostRuntime) -> Result<(), Fail> {
    let constraints = b"\x04\x10\x30\x0E\xA0\x05\x30\x03\x82\x01a\xA1\x05\x30\x03\x82\x01a";
    match NameConstraints::read(rt.alloc(), octet_string(constraints)?) {
        Ok(found) => assert!(rt; found.permitted.len() + found.excluded.len() == 2),
        Err(fault) => assert!(rt; fault == CertFault::Memory),
    }
    Ok(())
}
