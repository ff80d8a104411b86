//! Octets that are names, and octets that are none.

use super::*;

/// Octets that have not the layout of a name, and the place of the fault. An attribute that is well formed is the empty
/// common name, of 9 octets.
const LAYOUT_ROWS: &[(&str, &[u8], usize)] = &[
    ("a SET", b"\x31\x00", 0),
    ("a NULL", b"\x05\x00", 0),
    ("a name under a tag", b"\xA4\x02\x30\x00", 0),
    ("an RDN that is a SEQUENCE", b"\x30\x02\x30\x00", 2),
    ("an RDN that is primitive", b"\x30\x02\x05\x00", 2),
    ("an RDN without an attribute", b"\x30\x02\x31\x00", 4),
    ("an attribute that is a SET", b"\x30\x04\x31\x02\x31\x00", 4),
    (
        "an attribute that is primitive",
        b"\x30\x04\x31\x02\x05\x00",
        4,
    ),
    (
        "an attribute without a type",
        b"\x30\x04\x31\x02\x30\x00",
        6,
    ),
    (
        "a type that is no OBJECT IDENTIFIER",
        b"\x30\x08\x31\x06\x30\x04\x0C\x00\x05\x00",
        6,
    ),
    (
        "an attribute without a value",
        b"\x30\x09\x31\x07\x30\x05\x06\x03\x55\x04\x03",
        11,
    ),
    (
        "a value too many",
        b"\x30\x0D\x31\x0B\x30\x09\x06\x03\x55\x04\x03\x0C\x00\x05\x00",
        13,
    ),
    (
        "a second RDN that is a SEQUENCE",
        b"\x30\x0D\x31\x09\x30\x07\x06\x03\x55\x04\x03\x0C\x00\x30\x00",
        13,
    ),
    (
        "a second RDN without an attribute",
        b"\x30\x0D\x31\x09\x30\x07\x06\x03\x55\x04\x03\x0C\x00\x31\x00",
        15,
    ),
    (
        "a second attribute that is primitive",
        b"\x30\x0D\x31\x0B\x30\x07\x06\x03\x55\x04\x03\x0C\x00\x05\x00",
        13,
    ),
    (
        "a second attribute without a type",
        b"\x30\x0D\x31\x0B\x30\x07\x06\x03\x55\x04\x03\x0C\x00\x30\x00",
        15,
    ),
    (
        "a second attribute without a value",
        b"\x30\x12\x31\x10\x30\x07\x06\x03\x55\x04\x03\x0C\x00\x30\x05\x06\x03\x55\x04\x0A",
        20,
    ),
    (
        "a repeated type with a value too many",
        b"\x30\x16\x31\x14\x30\x07\x06\x03\x55\x04\x03\x0C\x00\x30\x09\x06\x03\x55\x04\x03\x0C\x00\x05\x00",
        22,
    ),
];

#[test]
fn layouts_are_refused(rt: HostRuntime) -> Result<(), Fail> {
    for (what, octets, at) in LAYOUT_ROWS.iter() {
        let refusal = Name::read(whole(octets)?).err();
        assert!(rt; refusal == Some((NameRule::NameLayout, *at)), "{what}");
    }
    Ok(())
}

/// Attributes, and the fault and its place. The first stands at offset 4; one with a value of n octets takes 9 + n.
const ATTRIBUTE_ROWS: &[(&str, &[Row<'_>], NameRule, usize)] = &[
    (
        "a type twice",
        &[(1, COMMON_NAME, UTF8, b"A"), (1, COMMON_NAME, UTF8, b"B")],
        NameRule::RdnRepeat,
        14,
    ),
    (
        "an attribute twice",
        &[(1, COMMON_NAME, UTF8, b"A"), (1, COMMON_NAME, UTF8, b"A")],
        NameRule::RdnRepeat,
        14,
    ),
    (
        "a type twice, with another between",
        &[
            (1, COMMON_NAME, UTF8, b"A"),
            (1, ORGANIZATION, UTF8, b"BC"),
            (1, COMMON_NAME, UTF8, b"ABC"),
        ],
        NameRule::RdnRepeat,
        25,
    ),
    (
        "a type twice, in lesser octets",
        &[(1, COMMON_NAME, UTF8, b"B"), (1, COMMON_NAME, UTF8, b"A")],
        NameRule::RdnRepeat,
        14,
    ),
    (
        "a type twice, with no string",
        &[
            (1, COMMON_NAME, UTF8, b"A"),
            (1, COMMON_NAME, PRINTABLE, &[0x80]),
        ],
        NameRule::RdnRepeat,
        14,
    ),
    (
        "a type twice in a second RDN",
        &[
            (1, COUNTRY, PRINTABLE, b"SE"),
            (2, COMMON_NAME, UTF8, b"A"),
            (2, COMMON_NAME, UTF8, b"B"),
        ],
        NameRule::RdnRepeat,
        27,
    ),
    (
        "a lesser type",
        &[(1, ORGANIZATION, UTF8, b"A"), (1, COMMON_NAME, UTF8, b"A")],
        NameRule::SetOrder,
        14,
    ),
    (
        "a lesser length",
        &[
            (1, COMMON_NAME, UTF8, b"ABC"),
            (1, ORGANIZATION, UTF8, b"A"),
        ],
        NameRule::SetOrder,
        16,
    ),
    (
        "a third that is less than the second",
        &[
            (1, COMMON_NAME, UTF8, b"A"),
            (1, ORGANIZATION, UTF8, b"A"),
            (1, COUNTRY, UTF8, b"A"),
        ],
        NameRule::SetOrder,
        24,
    ),
    (
        "lesser octets, with no string",
        &[
            (1, ORGANIZATION, UTF8, b"A"),
            (1, COMMON_NAME, PRINTABLE, &[0x80]),
        ],
        NameRule::SetOrder,
        14,
    ),
    (
        "lesser octets in a second RDN",
        &[
            (1, COUNTRY, PRINTABLE, b"SE"),
            (2, ORGANIZATION, UTF8, b"A"),
            (2, COMMON_NAME, UTF8, b"A"),
        ],
        NameRule::SetOrder,
        27,
    ),
    (
        "a PrintableString",
        &[(1, COMMON_NAME, PRINTABLE, &[0x80])],
        NameRule::Text,
        11,
    ),
    (
        "an IA5String",
        &[(1, COMMON_NAME, IA5, &[0x41, 0xFF])],
        NameRule::Text,
        11,
    ),
    (
        "a UTF8String that is cut",
        &[(1, COMMON_NAME, UTF8, &[0xC3])],
        NameRule::Text,
        11,
    ),
    (
        "a UTF8String with half a pair",
        &[(1, COMMON_NAME, UTF8, &[0xED, 0xA0, 0x80])],
        NameRule::Text,
        11,
    ),
    (
        "no string in a second attribute",
        &[
            (1, COMMON_NAME, UTF8, b"A"),
            (1, ORGANIZATION, PRINTABLE, &[0x80]),
        ],
        NameRule::Text,
        21,
    ),
    (
        "no string in a second RDN",
        &[
            (1, COMMON_NAME, UTF8, b"A"),
            (2, ORGANIZATION, IA5, &[0x80]),
        ],
        NameRule::Text,
        23,
    ),
    (
        "no string, then a type twice",
        &[
            (1, COMMON_NAME, PRINTABLE, &[0x80]),
            (1, COMMON_NAME, UTF8, b"AB"),
        ],
        NameRule::Text,
        11,
    ),
    (
        "no string, then lesser octets",
        &[
            (1, ORGANIZATION, PRINTABLE, &[0x80]),
            (1, COMMON_NAME, UTF8, b"A"),
        ],
        NameRule::Text,
        11,
    ),
];

#[test]
fn attributes_are_refused(rt: HostRuntime) -> Result<(), Fail> {
    for (what, attributes, fault, at) in ATTRIBUTE_ROWS.iter() {
        let octets = name_of(rt.alloc(), attributes)?;
        let refusal = Name::read(whole(&octets)?).err();
        assert!(rt; refusal == Some((*fault, *at)), "{what}");
    }
    Ok(())
}

/// Attributes that are read, and whether there are none.
const NAMES: &[(&str, &[Row<'_>], bool)] = &[
    ("no RDN", &[], true),
    ("one RDN", &[(1, COUNTRY, PRINTABLE, b"SE")], false),
    (
        "a type in two RDNs",
        &[(1, ORGANIZATION, UTF8, b"B"), (2, ORGANIZATION, UTF8, b"A")],
        false,
    ),
    (
        "a shorter attribute first",
        &[
            (1, ORGANIZATION, UTF8, b"A"),
            (1, COMMON_NAME, UTF8, b"ABC"),
        ],
        false,
    ),
    (
        "a TeletexString with octet E9",
        &[(1, COMMON_NAME, TELETEX, &[0xE9])],
        false,
    ),
    (
        "a PrintableString with octets 2A, 40 and 7F",
        &[(1, COMMON_NAME, PRINTABLE, &[0x2A, 0x40, 0x7F])],
        false,
    ),
    (
        "a SEQUENCE for a value",
        &[(1, COMMON_NAME, 0x30, &[])],
        false,
    ),
];

#[test]
fn names_are_read(rt: HostRuntime) -> Result<(), Fail> {
    for (what, attributes, empty) in NAMES.iter() {
        let octets = name_of(rt.alloc(), attributes)?;
        let name = read(&octets)?;
        let is_so = name.raw() == octets.as_slice() && name.is_empty() == *empty;
        assert!(rt; is_so, "{what}");
    }
    Ok(())
}

/// SEQUENCE { INTEGER 5, the name }
fn beside_a_number(alloc: Global, name: &[u8]) -> Result<Vec<u8>, Fail> {
    let mut members = value_of(alloc, 0x02, &[0x05])?;
    members.extend_from_slice(name)?;
    value_of(alloc, 0x30, &members)
}

/// What `read` answers for the last of the values inside.
fn read_last(octets: &[u8]) -> Result<Result<Name<'_>, NameRefusal>, Fail> {
    let mut members = whole(octets)?.inside().ok_or("a constructed value")?;
    members.next().ok_or("a first value")?;
    Ok(Name::read(members.next().ok_or("a second value")?))
}

/// Attributes of a name behind a number, and the fault and its place in the name.
const INNER_ROWS: &[(&[Row<'_>], NameRule, usize)] = &[
    (
        &[(1, COMMON_NAME, UTF8, b"A"), (1, COMMON_NAME, UTF8, b"B")],
        NameRule::RdnRepeat,
        14,
    ),
    (
        &[(1, ORGANIZATION, UTF8, b"A"), (1, COMMON_NAME, UTF8, b"A")],
        NameRule::SetOrder,
        14,
    ),
    (&[(1, COMMON_NAME, PRINTABLE, &[0x80])], NameRule::Text, 11),
];

#[test]
fn places_count_from_the_name(rt: HostRuntime) -> Result<(), Fail> {
    let octets = name_of(rt.alloc(), &[(1, COMMON_NAME, UTF8, b"A")])?;
    let inner = beside_a_number(rt.alloc(), &octets)?;
    let name = read_last(&inner)??;
    assert!(rt; name.raw() == octets.as_slice(), "its own octets");
    assert!(rt; name.matches(&read(&octets)?), "the name alone");

    for (attributes, fault, at) in INNER_ROWS.iter() {
        let octets = beside_a_number(rt.alloc(), &name_of(rt.alloc(), attributes)?)?;
        assert!(rt; read_last(&octets)?.err() == Some((*fault, *at)), "{fault}");
    }
    for (what, octets, at) in LAYOUT_ROWS.iter() {
        let octets = beside_a_number(rt.alloc(), octets)?;
        let refusal = read_last(&octets)?.err();
        assert!(rt; refusal == Some((NameRule::NameLayout, *at)), "{what}");
    }
    Ok(())
}

#[test]
fn places_count_from_the_whole_text(rt: HostRuntime) -> Result<(), Fail> {
    let octets = [0x30, 0x06, 0x30, 0x00, 0x30, 0x02, 0x05, 0x00];
    let mut names = whole(&octets)?.inside().ok_or("a constructed value")?;
    let empty = names.next().ok_or("a first name")?;
    assert!(rt;
        Name::at(empty)?.raw() == &octets[2..4],
        "a name that is read"
    );
    let other = names.next().ok_or("a second name")?;
    let refusal = Name::at(other).err();
    assert!(rt;
        refusal == Some((NameRule::NameLayout, 6)),
        "a NULL in a name"
    );
    Ok(())
}
