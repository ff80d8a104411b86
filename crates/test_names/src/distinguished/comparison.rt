//! Names compared, and their keys.

use super::*;

/// Whether each of two names lies within the other by the keys of their sets.
fn relations_by_keys(alloc: Global, left: &[u8], right: &[u8]) -> Result<[bool; 2], Fail> {
    let left_key = read(left)?.rdns_key(alloc)?;
    let right_key = read(right)?.rdns_key(alloc)?;
    Ok([
        left_key.starts_with(&right_key),
        right_key.starts_with(&left_key),
    ])
}

/// Whether each of two names matches the other, whether each lies within the other, and whether their keys are equal.
fn relations(alloc: Global, left: &[u8], right: &[u8]) -> Result<[bool; 5], Fail> {
    let left = read(left)?;
    let right = read(right)?;
    let left_key = left.key(alloc)?;
    let right_key = right.key(alloc)?;
    Ok([
        left.matches(&right),
        right.matches(&left),
        left.within(&right),
        right.within(&left),
        left_key.as_slice() == right_key.as_slice(),
    ])
}

/// A common name, and a second one: their identifier octets and contents, and whether they match.
const VALUE_ROWS: &[(&str, u8, &[u8], u8, &[u8], bool)] = &[
    (
        "worked",
        UTF8,
        b" Example   CA ",
        PRINTABLE,
        b"example ca",
        true,
    ),
    ("runs of spaces", UTF8, b"A  b", IA5, b"a B", true),
    ("an inner space", PRINTABLE, b"A B", PRINTABLE, b"AB", false),
    (
        "a leading space",
        PRINTABLE,
        b"  Ann",
        PRINTABLE,
        b"Ann",
        true,
    ),
    ("a trailing space", PRINTABLE, b"Ann ", IA5, b"Ann", true),
    ("spaces alone", PRINTABLE, b"   ", UTF8, b"", true),
    ("nothing", PRINTABLE, b"", PRINTABLE, b"A", false),
    ("case", PRINTABLE, b"EXAMPLE", PRINTABLE, b"example", true),
    ("case, in UTF-8", UTF8, b"Example", UTF8, b"eXAMPLE", true),
    ("other letters", UTF8, b"Ann", UTF8, b"Anna", false),
    ("no letters", PRINTABLE, b"@[", IA5, b"`{", false),
    ("a tab", IA5, b"A\tB", IA5, b"A B", false),
    (
        "two octets",
        UTF8,
        b"R\xC3\xA9my",
        UTF8,
        b"r\xC3\xA9MY",
        true,
    ),
    (
        "case past ASCII",
        UTF8,
        b"\xC3\x89",
        UTF8,
        b"\xC3\xA9",
        false,
    ),
    ("no-break space", UTF8, b"A\xC2\xA0B", UTF8, b"A B", false),
    ("UTF8 and IA5", UTF8, b"A", IA5, b"A", true),
    ("Printable and IA5", PRINTABLE, b"A", IA5, b"A", true),
    ("UTF8 and Teletex", UTF8, b"A", TELETEX, b"A", false),
    ("Teletex", TELETEX, b"A", TELETEX, b"A", true),
    ("Teletex, case", TELETEX, b"A", TELETEX, b"a", false),
    ("Teletex, spaces", TELETEX, b"A  B", TELETEX, b"A B", false),
    (
        "Numeric and Printable",
        NUMERIC,
        b"1",
        PRINTABLE,
        b"1",
        false,
    ),
    (
        "BMP and Printable",
        BMP,
        &[0x00, 0x41],
        PRINTABLE,
        b"A",
        false,
    ),
    (
        "BMP and Teletex",
        BMP,
        &[0x00, 0x41],
        TELETEX,
        &[0x00, 0x41],
        false,
    ),
];

/// A common name.
fn common_name(tag: u8, contents: &[u8]) -> Attribute<'_> {
    Attribute {
        kind: COMMON_NAME,
        tag,
        contents,
    }
}

#[test]
fn values_match(rt: HostRuntime) -> Result<(), Fail> {
    for (what, left_tag, left, right_tag, right, want) in VALUE_ROWS.iter() {
        let left_octets = name_of(rt.alloc(), &[(1, COMMON_NAME, *left_tag, *left)])?;
        let right_octets = name_of(rt.alloc(), &[(1, COMMON_NAME, *right_tag, *right)])?;
        let found = relations(rt.alloc(), &left_octets, &right_octets)?;
        let same = common_name(*left_tag, left).same_value(&common_name(*right_tag, right));
        assert!(rt; found == [*want; 5] && same == *want, "{what}");
    }
    name_laws();
    key_laws();
    Ok(())
}

const SWEDEN: Row<'_> = (1, COUNTRY, PRINTABLE, b"SE");

const ANN: Row<'_> = (2, COMMON_NAME, UTF8, b"Ann");

/// Two names, and whether the first lies within the second, and the second within the first. They match where both do.
const NAME_ROWS: &[(&str, &[Row<'_>], &[Row<'_>], bool, bool)] = &[
    (
        "a name and its beginning",
        &[SWEDEN, ANN],
        &[SWEDEN],
        true,
        false,
    ),
    ("a name and its end", &[SWEDEN, ANN], &[ANN], false, false),
    ("a name and the empty one", &[SWEDEN, ANN], &[], true, false),
    ("one RDN and none", &[SWEDEN], &[], true, false),
    ("empty names", &[], &[], true, true),
    (
        "a name and itself",
        &[SWEDEN, ANN],
        &[SWEDEN, ANN],
        true,
        true,
    ),
    ("turned RDNs", &[SWEDEN, ANN], &[ANN, SWEDEN], false, false),
    (
        "another beginning",
        &[SWEDEN, ANN],
        &[(1, COUNTRY, PRINTABLE, b"DK")],
        false,
        false,
    ),
    (
        "a beginning in another spelling",
        &[SWEDEN, ANN],
        &[(1, COUNTRY, UTF8, b" se")],
        true,
        false,
    ),
    (
        "an RDN twice",
        &[(1, ORGANIZATION, UTF8, b"A"), (2, ORGANIZATION, UTF8, b"A")],
        &[(1, ORGANIZATION, UTF8, b"A")],
        true,
        false,
    ),
    (
        "domain components",
        &[
            (1, DOMAIN_COMPONENT, IA5, b"com"),
            (2, DOMAIN_COMPONENT, IA5, b"Example"),
            (3, COMMON_NAME, UTF8, b"Ann"),
        ],
        &[
            (1, DOMAIN_COMPONENT, IA5, b"COM"),
            (2, DOMAIN_COMPONENT, IA5, b"example"),
        ],
        true,
        false,
    ),
    (
        "domain components in the order of a DNS name",
        &[
            (1, DOMAIN_COMPONENT, IA5, b"com"),
            (2, DOMAIN_COMPONENT, IA5, b"example"),
        ],
        &[
            (1, DOMAIN_COMPONENT, IA5, b"example"),
            (2, DOMAIN_COMPONENT, IA5, b"com"),
        ],
        false,
        false,
    ),
    (
        "one value, two types",
        &[(1, COMMON_NAME, UTF8, b"A")],
        &[(1, ORGANIZATION, UTF8, b"A")],
        false,
        false,
    ),
    (
        "a type that begins another",
        &[(1, COMMON_NAME, UTF8, b"A")],
        &[(1, &[0x55, 0x04, 0x03, 0x01], UTF8, b"A")],
        false,
        false,
    ),
    (
        "one set in two orders",
        &[
            (1, COMMON_NAME, UTF8, b"Ann"),
            (1, ORGANIZATION, UTF8, b"Acme"),
        ],
        &[
            (1, ORGANIZATION, UTF8, b"ACME"),
            (1, COMMON_NAME, UTF8, b" Ann  "),
        ],
        true,
        true,
    ),
    (
        "a set and two sets",
        &[(1, COMMON_NAME, UTF8, b"A"), (1, ORGANIZATION, UTF8, b"A")],
        &[(1, COMMON_NAME, UTF8, b"A"), (2, ORGANIZATION, UTF8, b"A")],
        false,
        false,
    ),
    (
        "a set and a part of it",
        &[(1, COMMON_NAME, UTF8, b"A"), (1, ORGANIZATION, UTF8, b"A")],
        &[(1, COMMON_NAME, UTF8, b"A")],
        false,
        false,
    ),
    (
        "sets that share one type",
        &[(1, COMMON_NAME, UTF8, b"A"), (1, ORGANIZATION, UTF8, b"A")],
        &[(1, COMMON_NAME, UTF8, b"A"), (1, COUNTRY, UTF8, b"A")],
        false,
        false,
    ),
    (
        "sets with one value apart",
        &[(1, COMMON_NAME, UTF8, b"A"), (1, ORGANIZATION, UTF8, b"A")],
        &[(1, COMMON_NAME, UTF8, b"A"), (1, ORGANIZATION, UTF8, b"B")],
        false,
        false,
    ),
    (
        "sets with values exchanged",
        &[(1, COMMON_NAME, UTF8, b"A"), (1, ORGANIZATION, UTF8, b"B")],
        &[(1, COMMON_NAME, UTF8, b"B"), (1, ORGANIZATION, UTF8, b"A")],
        false,
        false,
    ),
];

#[test]
fn names_compare(rt: HostRuntime) -> Result<(), Fail> {
    for (what, left, right, inside, around) in NAME_ROWS.iter() {
        let left_octets = name_of(rt.alloc(), left)?;
        let right_octets = name_of(rt.alloc(), right)?;
        let same = *inside && *around;
        let found = relations(rt.alloc(), &left_octets, &right_octets)?;
        assert!(rt; found == [same, same, *inside, *around, same], "{what}");
        let by_keys = relations_by_keys(rt.alloc(), &left_octets, &right_octets)?;
        assert!(rt; by_keys == [*inside, *around], "{what}, by keys");
    }
    Ok(())
}

/// 00000001 00000001 00000003 550403 01 0000000A "example ca"
const EXAMPLE_CA: &[u8] =
    b"\x00\x00\x00\x01\x00\x00\x00\x01\x00\x00\x00\x03\x55\x04\x03\x01\x00\x00\x00\x0Aexample ca";

/// Attributes, and the key of their name.
const KEY_ROWS: &[(&str, &[Row<'_>], &[u8])] = &[
    (
        "UTF8",
        &[(1, COMMON_NAME, UTF8, b" Example   CA ")],
        EXAMPLE_CA,
    ),
    (
        "Printable",
        &[(1, COMMON_NAME, PRINTABLE, b"example ca")],
        EXAMPLE_CA,
    ),
    (
        "Teletex",
        &[(1, COMMON_NAME, TELETEX, b"A")],
        b"\x00\x00\x00\x01\x00\x00\x00\x01\x00\x00\x00\x03\x55\x04\x03\x00\x00\x00\x00\x02\x14A",
    ),
    ("no RDN", &[], b"\x00\x00\x00\x00"),
    (
        "a set, by type",
        &[
            (1, ORGANIZATION, UTF8, b"B"),
            (1, COMMON_NAME, UTF8, b"Ann"),
        ],
        b"\x00\x00\x00\x01\x00\x00\x00\x02\
          \x00\x00\x00\x03\x55\x04\x03\x01\x00\x00\x00\x03ann\
          \x00\x00\x00\x03\x55\x04\x0A\x01\x00\x00\x00\x01b",
    ),
    (
        "two RDNs",
        &[
            (1, ORGANIZATION, UTF8, b"B"),
            (2, COMMON_NAME, UTF8, b"Ann"),
        ],
        b"\x00\x00\x00\x02\x00\x00\x00\x01\
          \x00\x00\x00\x03\x55\x04\x0A\x01\x00\x00\x00\x01b\
          \x00\x00\x00\x01\
          \x00\x00\x00\x03\x55\x04\x03\x01\x00\x00\x00\x03ann",
    ),
];

#[test]
fn keys_are_as_worked(rt: HostRuntime) -> Result<(), Fail> {
    for (what, attributes, want) in KEY_ROWS.iter() {
        let octets = name_of(rt.alloc(), attributes)?;
        let key = read(&octets)?.key(rt.alloc())?;
        assert!(rt; key.as_slice() == *want, "{what}");
        let sets = read(&octets)?.rdns_key(rt.alloc())?;
        assert!(rt; Some(sets.as_slice()) == want.get(4..), "{what}, the sets");
    }
    Ok(())
}

/// Holds whether an allocation is refused or not: `rt try --test --fail-alloc N` refuses the Nth.
#[test]
fn wants_memory_or_answers(rt: HostRuntime) -> Result<(), Fail> {
    // CN: UTF8String " Example   CA "
    let name = read(b"\x30\x19\x31\x17\x30\x15\x06\x03\x55\x04\x03\x0C\x0E Example   CA ")?;
    match name.key(rt.alloc()) {
        Ok(key) => assert!(rt; key.as_slice() == EXAMPLE_CA),
        Err(AllocError) => (),
    }
    Ok(())
}

/// Types, and whether the name below has an attribute of each.
const TYPES: &[(&[u8], bool)] = &[
    (COUNTRY, true),
    (COMMON_NAME, true),
    (ORGANIZATION, true),
    (DOMAIN_COMPONENT, false),
    (&[0x55, 0x04], false),
    (&[0x55, 0x04, 0x03, 0x01], false),
];

#[test]
fn names_have_types(rt: HostRuntime) -> Result<(), Fail> {
    let octets = name_of(
        rt.alloc(),
        &[
            (1, COUNTRY, PRINTABLE, b"SE"),
            (2, COMMON_NAME, UTF8, b"A"),
            (2, ORGANIZATION, UTF8, b"A"),
        ],
    )?;
    let name = read(&octets)?;
    for (kind, want) in TYPES.iter() {
        assert!(rt; name.has(Oid::new(kind)) == *want, "{kind:?}");
    }
    let has_country = read(&[0x30, 0x00])?.has(Oid::new(COUNTRY));
    assert!(rt; !has_country, "an empty name");
    Ok(())
}

/// Two sets, each in the order of its octets, and whether they match.
const SET_ROWS: &[(&str, &[Row<'static>], &[Row<'static>], bool)] = &[
    (
        "types in one order",
        &[
            (1, TYPE_1, UTF8, b""),
            (1, TYPE_2, UTF8, b"a"),
            (1, TYPE_3, UTF8, b"ab"),
        ],
        &[
            (1, TYPE_1, UTF8, b""),
            (1, TYPE_2, UTF8, b"A"),
            (1, TYPE_3, UTF8, b"AB"),
        ],
        true,
    ),
    (
        "types in one order, the last with another value",
        &[
            (1, TYPE_1, UTF8, b""),
            (1, TYPE_2, UTF8, b"a"),
            (1, TYPE_3, UTF8, b"ab"),
        ],
        &[
            (1, TYPE_1, UTF8, b""),
            (1, TYPE_2, UTF8, b"A"),
            (1, TYPE_3, UTF8, b"AC"),
        ],
        false,
    ),
    (
        "a set and its beginning",
        &[(1, TYPE_1, UTF8, b""), (1, TYPE_2, UTF8, b"a")],
        &[(1, TYPE_1, UTF8, b"")],
        false,
    ),
    (
        "two runs and two others",
        &[
            (1, TYPE_1, UTF8, b""),
            (1, TYPE_4, UTF8, b""),
            (1, TYPE_2, UTF8, b"x"),
        ],
        &[
            (1, TYPE_2, UTF8, b"X"),
            (1, TYPE_4, UTF8, b" "),
            (1, TYPE_1, UTF8, b"  "),
        ],
        true,
    ),
    (
        "the last has another value",
        &[
            (1, TYPE_1, UTF8, b""),
            (1, TYPE_4, UTF8, b""),
            (1, TYPE_2, UTF8, b"x"),
        ],
        &[
            (1, TYPE_2, UTF8, b"Y"),
            (1, TYPE_4, UTF8, b" "),
            (1, TYPE_1, UTF8, b"  "),
        ],
        false,
    ),
    (
        "one inside a run has another value",
        &[
            (1, TYPE_1, UTF8, b""),
            (1, TYPE_4, UTF8, b""),
            (1, TYPE_2, UTF8, b"x"),
        ],
        &[
            (1, TYPE_2, UTF8, b"X"),
            (1, TYPE_4, UTF8, b"z"),
            (1, TYPE_1, UTF8, b"  "),
        ],
        false,
    ),
    (
        "one has another type",
        &[
            (1, TYPE_1, UTF8, b""),
            (1, TYPE_4, UTF8, b""),
            (1, TYPE_2, UTF8, b"x"),
        ],
        &[
            (1, TYPE_2, UTF8, b"X"),
            (1, TYPE_5, UTF8, b" "),
            (1, TYPE_1, UTF8, b"  "),
        ],
        false,
    ),
    (
        "one more, in a run of its own",
        &[
            (1, TYPE_1, UTF8, b""),
            (1, TYPE_4, UTF8, b""),
            (1, TYPE_2, UTF8, b"x"),
        ],
        &[
            (1, TYPE_2, UTF8, b"X"),
            (1, TYPE_4, UTF8, b" "),
            (1, TYPE_1, UTF8, b"  "),
            (1, TYPE_5, UTF8, b"abc"),
        ],
        false,
    ),
    (
        "three runs and three others",
        &[
            (1, TYPE_1, UTF8, b""),
            (1, TYPE_4, UTF8, b""),
            (1, TYPE_2, UTF8, b"a"),
            (1, TYPE_5, UTF8, b"a"),
            (1, TYPE_3, UTF8, b"ab"),
            (1, TYPE_6, UTF8, b"ab"),
        ],
        &[
            (1, TYPE_5, UTF8, b"A"),
            (1, TYPE_2, UTF8, b"a "),
            (1, TYPE_3, UTF8, b"AB"),
            (1, TYPE_4, UTF8, b"  "),
            (1, TYPE_1, UTF8, b"   "),
            (1, TYPE_6, UTF8, b" ab"),
        ],
        true,
    ),
    (
        "three runs and three others, the last with another value",
        &[
            (1, TYPE_1, UTF8, b""),
            (1, TYPE_4, UTF8, b""),
            (1, TYPE_2, UTF8, b"a"),
            (1, TYPE_5, UTF8, b"a"),
            (1, TYPE_3, UTF8, b"ab"),
            (1, TYPE_6, UTF8, b"ab"),
        ],
        &[
            (1, TYPE_5, UTF8, b"A"),
            (1, TYPE_2, UTF8, b"a "),
            (1, TYPE_3, UTF8, b"AB"),
            (1, TYPE_4, UTF8, b"  "),
            (1, TYPE_1, UTF8, b"   "),
            (1, TYPE_6, UTF8, b" ac"),
        ],
        false,
    ),
    (
        "turned values",
        &[(1, TYPE_1, UTF8, b"x"), (1, TYPE_2, UTF8, b"yy")],
        &[(1, TYPE_2, UTF8, b"x"), (1, TYPE_1, UTF8, b"yy")],
        false,
    ),
    (
        "types that begin one another, turned",
        &[(1, SHORT_TYPE, UTF8, b""), (1, TYPE_1, UTF8, b"a")],
        &[(1, TYPE_1, UTF8, b"A"), (1, SHORT_TYPE, UTF8, b"   ")],
        true,
    ),
    (
        "a short type for a long one",
        &[(1, SHORT_TYPE, UTF8, b""), (1, TYPE_2, UTF8, b"a")],
        &[(1, TYPE_1, UTF8, b""), (1, TYPE_2, UTF8, b"a")],
        false,
    ),
];

#[test]
fn sets_of_several_runs_compare(rt: HostRuntime) -> Result<(), Fail> {
    for (what, left, right, want) in SET_ROWS.iter() {
        let left = name_of(rt.alloc(), left)?;
        let right = name_of(rt.alloc(), right)?;
        let found = relations(rt.alloc(), &left, &right)?;
        assert!(rt; found == [*want; 5], "{what}");
    }
    Ok(())
}
