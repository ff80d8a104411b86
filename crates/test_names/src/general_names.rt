//! That the definitions are those of RFC 5280: values written by hand, and what they say.

use asn::whole;
use names::{Domain, Form, General, NameRefusal, NameRule, Subtree, coverage_laws, general_laws};
use std::test::Fail;

/// The name of one RDN, with the common name A.
const NAME_A: &[u8] = b"\x30\x0C\x31\x0A\x30\x08\x06\x03\x55\x04\x03\x13\x01A";

/// The directoryName of it.
const DIRECTORY_NAME_A: &[u8] = b"\xA4\x0E\x30\x0C\x31\x0A\x30\x08\x06\x03\x55\x04\x03\x13\x01A";

/// A label of 63 octets, the dNSName of it, and one of a label of 64.
const LETTERS: &[u8] = b"aaaaaaaaaaaaaaaaaaaaaaaaaaaaaaaaaaaaaaaaaaaaaaaaaaaaaaaaaaaaaaa";

const LABEL_OF_63: &[u8] =
    b"\x82\x3Faaaaaaaaaaaaaaaaaaaaaaaaaaaaaaaaaaaaaaaaaaaaaaaaaaaaaaaaaaaaaaa";

const LABEL_OF_64: &[u8] =
    b"\x82\x40aaaaaaaaaaaaaaaaaaaaaaaaaaaaaaaaaaaaaaaaaaaaaaaaaaaaaaaaaaaaaaaa";

const LAYOUT: NameRule = NameRule::NameLayout;

/// A form, and contents; of a directory name its octets.
type Said<'a> = (Form, &'a [u8]);

fn said_by(name: General<'_>) -> Said<'_> {
    let form = name.form();
    match name {
        General::Directory(name) => (form, name.raw()),
        General::Dns(octets) | General::Ip(octets) | General::Other(_, octets) => (form, octets),
    }
}

/// What is read of the octets as a general name, where they are one value.
fn general_name(octets: &[u8]) -> Result<Result<Said<'_>, NameRefusal>, asn::Fault> {
    let value = whole(octets)?;
    Ok(General::read(value).map(|name| said_by(name)))
}

/// Octets that are a general name, and what it says.
const GENERAL_NAMES: &[(&str, &[u8], Said<'_>)] = &[
    (
        "otherName",
        &[
            0xA0, 0x0A, 0x06, 0x03, 0x2A, 0x03, 0x04, 0xA0, 0x03, 0x0C, 0x01, 0x61,
        ],
        (
            Form::Other(0),
            &[0x06, 0x03, 0x2A, 0x03, 0x04, 0xA0, 0x03, 0x0C, 0x01, 0x61],
        ),
    ),
    ("rfc822Name", b"\x81\x03a@b", (Form::Other(1), b"a@b")),
    (
        "dNSName",
        b"\x82\x0Bexample.com",
        (Form::Dns, b"example.com"),
    ),
    (
        "x400Address",
        &[0xA3, 0x02, 0x30, 0x00],
        (Form::Other(3), &[0x30, 0x00]),
    ),
    ("directoryName", DIRECTORY_NAME_A, (Form::Directory, NAME_A)),
    (
        "directoryName, empty",
        &[0xA4, 0x02, 0x30, 0x00],
        (Form::Directory, &[0x30, 0x00]),
    ),
    (
        "ediPartyName",
        &[0xA5, 0x05, 0xA1, 0x03, 0x0C, 0x01, 0x61],
        (Form::Other(5), &[0xA1, 0x03, 0x0C, 0x01, 0x61]),
    ),
    ("URI", b"\x86\x08http://a", (Form::Other(6), b"http://a")),
    (
        "iPAddress, version 4",
        &[0x87, 0x04, 0xC0, 0x00, 0x02, 0x01],
        (Form::Ip, &[0xC0, 0x00, 0x02, 0x01]),
    ),
    (
        "iPAddress, version 6",
        &[
            0x87, 0x10, 0x20, 0x01, 0x0D, 0xB8, 0, 0, 0, 0, 0, 0, 0, 0, 0, 0, 0, 1,
        ],
        (
            Form::Ip,
            &[0x20, 0x01, 0x0D, 0xB8, 0, 0, 0, 0, 0, 0, 0, 0, 0, 0, 0, 1],
        ),
    ),
    (
        "registeredID",
        &[0x88, 0x03, 0x2A, 0x03, 0x04],
        (Form::Other(8), &[0x2A, 0x03, 0x04]),
    ),
    ("an empty otherName", &[0xA0, 0x00], (Form::Other(0), &[])),
    ("an empty URI", &[0x86, 0x00], (Form::Other(6), &[])),
    ("a label of 63", LABEL_OF_63, (Form::Dns, LETTERS)),
];

#[test]
fn general_names_of_each_form_are_read(rt: HostRuntime) -> Result<(), Fail> {
    for (what, octets, want) in GENERAL_NAMES.iter() {
        assert!(rt; general_name(octets)? == Ok(*want), "{what}");
    }
    general_laws();
    coverage_laws();
    Ok(())
}

/// Octets that are no general name, and the fault.
const REFUSED_NAMES: &[(&str, &[u8], NameRefusal)] = &[
    ("an empty label", b"\x82\x04a..b", (NameRule::DnsForm, 0)),
    ("a leading dot", b"\x82\x02.a", (NameRule::DnsForm, 0)),
    ("an empty dNSName", b"\x82\x00", (NameRule::DnsForm, 0)),
    ("a label of 64", LABEL_OF_64, (NameRule::DnsForm, 0)),
    (
        "5 octets",
        &[0x87, 0x05, 0xC0, 0x00, 0x02, 0x01, 0x00],
        (NameRule::IpForm, 0),
    ),
    (
        "an address and a mask",
        &[0x87, 0x08, 0x0A, 0, 0, 0, 0xFF, 0, 0, 0],
        (NameRule::IpForm, 0),
    ),
    ("an empty iPAddress", &[0x87, 0x00], (NameRule::IpForm, 0)),
    ("no name", &[0xA4, 0x00], (LAYOUT, 2)),
    (
        "two names",
        &[0xA4, 0x04, 0x30, 0x00, 0x30, 0x00],
        (LAYOUT, 4),
    ),
    ("a SET for a name", &[0xA4, 0x02, 0x31, 0x00], (LAYOUT, 2)),
    (
        "the name before what is left over",
        &[0xA4, 0x04, 0x31, 0x00, 0x30, 0x00],
        (LAYOUT, 2),
    ),
    (
        "a SEQUENCE for an RDN",
        &[0xA4, 0x04, 0x30, 0x02, 0x30, 0x00],
        (LAYOUT, 4),
    ),
    (
        "an empty RDN",
        &[0xA4, 0x04, 0x30, 0x02, 0x31, 0x00],
        (LAYOUT, 6),
    ),
    (
        "no PrintableString",
        &[
            0xA4, 0x0E, 0x30, 0x0C, 0x31, 0x0A, 0x30, 0x08, 0x06, 0x03, 0x55, 0x04, 0x03, 0x13,
            0x01, 0xFF,
        ],
        (NameRule::Text, 13),
    ),
    ("a primitive directoryName", &[0x84, 0x00], (LAYOUT, 0)),
    ("a constructed dNSName", &[0xA2, 0x00], (LAYOUT, 0)),
    ("form 9", &[0x89, 0x00], (LAYOUT, 0)),
    ("an IA5String", b"\x16\x01a", (LAYOUT, 0)),
];

/// Identifier octets of no form.
const OTHER_IDENTIFIERS: &[u8] = &[
    0x04, 0x0C, 0x30, 0x31, 0x61, 0x80, 0x83, 0x84, 0x85, 0x8A, 0x9E, 0xA1, 0xA2, 0xA6, 0xA7, 0xA8,
    0xA9, 0xC2, 0xE4,
];

#[test]
fn faults_of_general_names_have_their_place(rt: HostRuntime) -> Result<(), Fail> {
    for (what, octets, want) in REFUSED_NAMES.iter() {
        assert!(rt; general_name(octets)? == Err(*want), "{what}");
    }
    for identifier in OTHER_IDENTIFIERS.iter() {
        let octets: [u8; 2] = [*identifier, 0x00];
        let (name, base) = (general_name(&octets)?, base_of(&octets)?);
        let is_so = name == Err((LAYOUT, 0)) && base == Err((LAYOUT, 0));
        assert!(rt; is_so, "identifier {identifier}");
    }
    Ok(())
}

#[test]
fn places_count_from_the_value(rt: HostRuntime) -> Result<(), Fail> {
    let octets = [0x30, 0x08, 0x86, 0x00, 0xA4, 0x04, 0x30, 0x00, 0x31, 0x00];
    let mut names = whole(&octets)?.inside().ok_or("constructed")?;
    let uri = names.next().ok_or("a first name")?;
    let directory = names.next().ok_or("a second name")?;
    assert!(rt;
        General::read(uri).map(|name| said_by(name)) == Ok((Form::Other(6), &[])),
        "a name"
    );
    assert!(rt;
        General::read(directory).map(|name| said_by(name)) == Err((LAYOUT, 4)),
        "a name"
    );
    assert!(rt;
        Subtree::read_base(directory).map(|base| said_by_base(base)) == Err((LAYOUT, 4)),
        "a base"
    );
    Ok(())
}

#[test]
fn places_count_from_the_whole_text(rt: HostRuntime) -> Result<(), Fail> {
    let octets = [0x30, 0x08, 0x86, 0x00, 0xA4, 0x04, 0x30, 0x00, 0x31, 0x00];
    let mut names = whole(&octets)?.inside().ok_or("constructed")?;
    let uri = names.next().ok_or("a first name")?;
    let directory = names.next().ok_or("a second name")?;
    assert!(rt;
        General::at(uri).map(|name| said_by(name)) == Ok((Form::Other(6), &[])),
        "a name that is read"
    );
    assert!(rt;
        General::at(directory).map(|name| said_by(name)) == Err((LAYOUT, 8)),
        "a name"
    );
    assert!(rt;
        Subtree::base_at(uri).map(|base| said_by_base(base)) == Ok(Base::Other(6, &[])),
        "a base that is read"
    );
    assert!(rt;
        Subtree::base_at(directory).map(|base| said_by_base(base)) == Err((LAYOUT, 8)),
        "a base"
    );
    Ok(())
}

/// What a base says; of a directory name its octets.
#[derive(Clone, Copy, PartialEq)]
enum Base<'a> {
    Directory(&'a [u8]),
    Every,
    Within(&'a [u8]),
    Below(&'a [u8]),
    Addresses(&'a [u8], u16),
    Other(u8, &'a [u8]),
}

fn said_by_base(base: Subtree<'_>) -> Base<'_> {
    match base {
        Subtree::Directory(name) => Base::Directory(name.raw()),
        Subtree::Dns(Domain::Every) => Base::Every,
        Subtree::Dns(Domain::Within(text)) => Base::Within(text),
        Subtree::Dns(Domain::Below(text)) => Base::Below(text),
        Subtree::Ip(range) => Base::Addresses(range.address, range.prefix),
        Subtree::Other(number, octets) => Base::Other(number, octets),
    }
}

/// What is read of the octets as the base of a subtree, where they are one value.
fn base_of(octets: &[u8]) -> Result<Result<Base<'_>, NameRefusal>, asn::Fault> {
    let value = whole(octets)?;
    Ok(Subtree::read_base(value).map(|base| said_by_base(base)))
}

/// Octets that are the base of a subtree, and what it says.
const BASES: &[(&str, &[u8], Base<'_>)] = &[
    ("otherName", &[0xA0, 0x00], Base::Other(0, &[])),
    (
        "rfc822Name",
        b"\x81\x0Bexample.com",
        Base::Other(1, b"example.com"),
    ),
    ("every DNS name", b"\x82\x00", Base::Every),
    (
        "a DNS name",
        b"\x82\x10host.example.com",
        Base::Within(b"host.example.com"),
    ),
    (
        "a leading dot",
        b"\x82\x0C.example.com",
        Base::Below(b"example.com"),
    ),
    ("x400Address", &[0xA3, 0x00], Base::Other(3, &[])),
    ("directoryName", DIRECTORY_NAME_A, Base::Directory(NAME_A)),
    ("ediPartyName", &[0xA5, 0x00], Base::Other(5, &[])),
    (
        "URI",
        b"\x86\x0C.example.com",
        Base::Other(6, b".example.com"),
    ),
    (
        "192.0.2.0/24",
        &[0x87, 0x08, 0xC0, 0x00, 0x02, 0x00, 0xFF, 0xFF, 0xFF, 0x00],
        Base::Addresses(&[0xC0, 0x00, 0x02, 0x00], 24),
    ),
    (
        "0.0.0.0/0",
        &[0x87, 0x08, 0, 0, 0, 0, 0, 0, 0, 0],
        Base::Addresses(&[0, 0, 0, 0], 0),
    ),
    (
        "10.1.2.3 under a mask of 9",
        &[0x87, 0x08, 0x0A, 0x01, 0x02, 0x03, 0xFF, 0x80, 0x00, 0x00],
        Base::Addresses(&[0x0A, 0x01, 0x02, 0x03], 9),
    ),
    (
        "192.0.2.1/32",
        &[0x87, 0x08, 0xC0, 0x00, 0x02, 0x01, 0xFF, 0xFF, 0xFF, 0xFF],
        Base::Addresses(&[0xC0, 0x00, 0x02, 0x01], 32),
    ),
    (
        "2001:db8::/32",
        &[
            0x87, 0x20, 0x20, 0x01, 0x0D, 0xB8, 0, 0, 0, 0, 0, 0, 0, 0, 0, 0, 0, 0, 0xFF, 0xFF,
            0xFF, 0xFF, 0, 0, 0, 0, 0, 0, 0, 0, 0, 0, 0, 0,
        ],
        Base::Addresses(
            &[0x20, 0x01, 0x0D, 0xB8, 0, 0, 0, 0, 0, 0, 0, 0, 0, 0, 0, 0],
            32,
        ),
    ),
    ("registeredID", &[0x88, 0x01, 0x2A], Base::Other(8, &[0x2A])),
];

#[test]
fn bases_of_subtrees_are_read(rt: HostRuntime) -> Result<(), Fail> {
    for (what, octets, want) in BASES.iter() {
        assert!(rt; base_of(octets)? == Ok(*want), "{what}");
    }
    Ok(())
}

/// Octets that are no base, and the fault.
const REFUSED_BASES: &[(&str, &[u8], NameRefusal)] = &[
    ("a dot", b"\x82\x01.", (NameRule::DnsForm, 0)),
    ("an empty label", b"\x82\x04a..b", (NameRule::DnsForm, 0)),
    ("two leading dots", b"\x82\x03..a", (NameRule::DnsForm, 0)),
    (
        "an address alone",
        &[0x87, 0x04, 0xC0, 0x00, 0x02, 0x01],
        (NameRule::IpForm, 0),
    ),
    (
        "5 octets",
        &[0x87, 0x05, 0xC0, 0x00, 0x02, 0x01, 0x00],
        (NameRule::IpForm, 0),
    ),
    (
        "16 octets",
        &[0x87, 0x10, 0, 0, 0, 0, 0, 0, 0, 0, 0, 0, 0, 0, 0, 0, 0, 0],
        (NameRule::IpForm, 0),
    ),
    (
        "an octet of zeros",
        &[0x87, 0x08, 0x0A, 0, 0, 0, 0xFF, 0x00, 0xFF, 0x00],
        (NameRule::MaskForm, 0),
    ),
    (
        "a hole of one bit",
        &[0x87, 0x08, 0x0A, 0, 0, 0, 0xFD, 0x00, 0x00, 0x00],
        (NameRule::MaskForm, 0),
    ),
    (
        "the last bit alone",
        &[0x87, 0x08, 0x0A, 0, 0, 0, 0x00, 0x00, 0x00, 0x01],
        (NameRule::MaskForm, 0),
    ),
    ("no name", &[0xA4, 0x00], (LAYOUT, 2)),
    (
        "two names",
        &[0xA4, 0x04, 0x30, 0x00, 0x30, 0x00],
        (LAYOUT, 4),
    ),
    (
        "a SEQUENCE for an RDN",
        &[0xA4, 0x04, 0x30, 0x02, 0x30, 0x00],
        (LAYOUT, 4),
    ),
    ("a primitive directoryName", &[0x84, 0x00], (LAYOUT, 0)),
];

#[test]
fn faults_of_bases_have_their_place(rt: HostRuntime) -> Result<(), Fail> {
    for (what, octets, want) in REFUSED_BASES.iter() {
        assert!(rt; base_of(octets)? == Err(*want), "{what}");
    }
    Ok(())
}
