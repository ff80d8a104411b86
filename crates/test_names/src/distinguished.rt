//! What no clause says: that the definitions are those of the standards, by rows worked by hand and taken from them.

use asn::{Oid, whole};
use names::{
    Attribute, Name, NameRefusal, NameRule, key_laws, name_laws, preparation_laws, prepared_text,
    same_prepared,
};
use std::alloc::{AllocError, Global};
use std::test::Fail;

mod batches;
mod comparison;
mod layout;
mod repetition;
mod subtrees;

const COMMON_NAME: &[u8] = &[0x55, 0x04, 0x03];

const COUNTRY: &[u8] = &[0x55, 0x04, 0x06];

const ORGANIZATION: &[u8] = &[0x55, 0x04, 0x0A];

/// 0.9.2342.19200300.100.1.25
const DOMAIN_COMPONENT: &[u8] = &[0x09, 0x92, 0x26, 0x89, 0x93, 0xF2, 0x2C, 0x64, 0x01, 0x19];

/// Types of three octets, in order, and one of two that they begin with.
const SHORT_TYPE: &[u8] = &[0x55, 0x04];

const TYPE_1: &[u8] = &[0x55, 0x04, 0x01];

const TYPE_2: &[u8] = &[0x55, 0x04, 0x02];

const TYPE_3: &[u8] = &[0x55, 0x04, 0x03];

const TYPE_4: &[u8] = &[0x55, 0x04, 0x04];

const TYPE_5: &[u8] = &[0x55, 0x04, 0x05];

const TYPE_6: &[u8] = &[0x55, 0x04, 0x06];

const UTF8: u8 = 12;

const NUMERIC: u8 = 18;

const PRINTABLE: u8 = 19;

const TELETEX: u8 = 20;

const IA5: u8 = 22;

const BMP: u8 = 30;

/// Values of a common name: the identifier octet, the contents, and whether they are a text.
const TEXTS: &[(u8, &[u8], bool)] = &[
    (PRINTABLE, b"Example CA", true),
    (PRINTABLE, &[0x80], false),
    (IA5, &[0x7F], true),
    (IA5, &[0x41, 0xFF], false),
    (UTF8, &[0xC3, 0xA9], true),
    (UTF8, &[0xC3], false),
    (UTF8, &[0xED, 0xA0, 0x80], false),
    (TELETEX, &[0xE9], true),
    (UTF8, &[], true),
];

#[test]
fn texts_are_well_formed(rt: HostRuntime) -> Result<(), Fail> {
    for (tag, contents, want) in TEXTS.iter() {
        let octets = name_of(rt.alloc(), &[(1, COMMON_NAME, *tag, *contents)])?;
        let refusal = Name::read(whole(&octets)?).err();
        let wanted = (!*want).then_some((NameRule::Text, 11));
        assert!(rt; refusal == wanted, "tag {tag}");
    }
    Ok(())
}

const PREPARED: &[(&[u8], &[u8])] = &[
    (b" Example   CA ", b"example ca"),
    (b"example ca", b"example ca"),
    (b"A  b", b"a b"),
    (b"   ", b""),
    (b"", b""),
    (b"a\tB", b"a\tb"),
    (&[0xC3, 0x89, 0x20, 0x20, 0x5A], &[0xC3, 0x89, 0x20, 0x7A]),
    (b"AZ[@`az{", b"az[@`az{"),
];

/// Texts that are not the same once they are prepared.
const APART: &[(&str, &str)] = &[
    ("a b", "ab"),
    ("a", "b"),
    ("a", ""),
    ("", "a"),
    ("a b", "a"),
    ("a", "a b"),
];

#[test]
fn texts_are_prepared(rt: HostRuntime) -> Result<(), AllocError> {
    for (text, want) in PREPARED.iter() {
        let prepared = prepared_text(rt.alloc(), text)?;
        let is_so = prepared.as_slice() == *want && same_prepared(text, want);
        assert!(rt; is_so, "{text:?}");
    }
    for (left, right) in APART.iter() {
        let are_same = same_prepared(left.as_bytes(), right.as_bytes());
        assert!(rt; !are_same, "{left} and {right}");
    }
    preparation_laws();
    Ok(())
}

/// An attribute: the number of its RDN, its type, and the identifier octet and the contents of its value.
type Row<'a> = (u8, &'a [u8], u8, &'a [u8]);

/// A value with these contents, of fewer than 128 octets.
fn value_of(alloc: Global, tag: u8, contents: &[u8]) -> Result<Vec<u8>, Fail> {
    let mut out = vec![in alloc; tag; 1]?;
    out.push(u8::try_from(contents.len())?)?;
    out.extend_from_slice(contents)?;
    Ok(out)
}

fn attribute_of(alloc: Global, row: &Row<'_>) -> Result<Vec<u8>, Fail> {
    let (_, kind, tag, contents) = *row;
    let mut members = value_of(alloc, 0x06, kind)?;
    members.extend_from_slice(&value_of(alloc, tag, contents)?)?;
    value_of(alloc, 0x30, &members)
}

fn rdn_of(alloc: Global, rows: &[Row<'_>]) -> Result<Vec<u8>, Fail> {
    let mut attributes = Vec::new(alloc);
    for row in rows {
        attributes.extend_from_slice(&attribute_of(alloc, row)?)?;
    }
    value_of(alloc, 0x31, &attributes)
}

/// The octets of a name with these attributes. Neighbours with one number share an RDN.
fn name_of(alloc: Global, rows: &[Row<'_>]) -> Result<Vec<u8>, Fail> {
    let mut rdns = Vec::new(alloc);
    for rdn in rows.chunk_by(|row, next| row.0 == next.0) {
        rdns.extend_from_slice(&rdn_of(alloc, rdn)?)?;
    }
    value_of(alloc, 0x30, &rdns)
}

/// The name that the octets are.
fn read(octets: &[u8]) -> Result<Name<'_>, Fail> {
    Ok(Name::read(whole(octets)?)?)
}

#[test]
fn rows_are_spelled(rt: HostRuntime) -> Result<(), Fail> {
    // two RDNs, the second with two attributes
    let want = [
        0x30, 0x24, 0x31, 0x0B, 0x30, 0x09, 0x06, 0x03, 0x55, 0x04, 0x06, 0x13, 0x02, 0x53, 0x45,
        0x31, 0x15, 0x30, 0x08, 0x06, 0x03, 0x55, 0x04, 0x03, 0x0C, 0x01, 0x41, 0x30, 0x09, 0x06,
        0x03, 0x55, 0x04, 0x0A, 0x13, 0x02, 0x42, 0x43,
    ];
    let rows: [Row<'_>; 3] = [
        (1, COUNTRY, PRINTABLE, b"SE"),
        (2, COMMON_NAME, UTF8, b"A"),
        (2, ORGANIZATION, PRINTABLE, b"BC"),
    ];
    assert!(rt; name_of(rt.alloc(), &rows)?.as_slice() == &want[..]);
    assert!(rt; name_of(rt.alloc(), &[])?.as_slice() == &[0x30, 0x00][..]);
    Ok(())
}

const FAULTS: &[(NameRule, u8, &str)] = &[
    (NameRule::NameLayout, 11, "NameLayout"),
    (NameRule::RdnRepeat, 12, "RdnRepeat"),
    (NameRule::SetOrder, 13, "SetOrder"),
    (NameRule::Text, 14, "Text"),
    (NameRule::DnsForm, 15, "DnsForm"),
    (NameRule::IpForm, 16, "IpForm"),
    (NameRule::MaskForm, 17, "MaskForm"),
    (NameRule::MailForm, 18, "MailForm"),
    (NameRule::UriForm, 19, "UriForm"),
];

#[test]
fn faults_have_numbers_and_names(rt: HostRuntime) {
    for (fault, number, name) in FAULTS.iter() {
        let is_so = fault.number() == *number && fault.name() == *name;
        assert!(rt; is_so, "{fault}");
    }
}
