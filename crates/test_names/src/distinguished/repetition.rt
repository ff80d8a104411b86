//! RDNs of several runs, and where they repeat a type.

use super::*;

/// What `read` answers where it refuses.
type Want = Option<(NameRule, usize)>;

/// Attributes, and the fault and its place. The first stands at offset 4; one with a type of three octets and a value of n
/// takes 9 + n.
const ROWS: &[(&str, &[Row<'static>], Want)] = &[
    (
        "one run",
        &[
            (1, TYPE_1, UTF8, b""),
            (1, TYPE_2, UTF8, b""),
            (1, TYPE_3, UTF8, b""),
        ],
        None,
    ),
    (
        "three runs, one between the other",
        &[
            (1, TYPE_1, UTF8, b""),
            (1, TYPE_4, UTF8, b""),
            (1, TYPE_2, UTF8, b"a"),
            (1, TYPE_5, UTF8, b"a"),
            (1, TYPE_3, UTF8, b"ab"),
            (1, TYPE_6, UTF8, b"ab"),
        ],
        None,
    ),
    (
        "runs that descend",
        &[
            (1, TYPE_5, UTF8, b""),
            (1, TYPE_6, UTF8, b""),
            (1, TYPE_3, UTF8, b"a"),
            (1, TYPE_4, UTF8, b"a"),
            (1, TYPE_1, UTF8, b"ab"),
            (1, TYPE_2, UTF8, b"ab"),
        ],
        None,
    ),
    (
        "a type that begins another",
        &[
            (1, SHORT_TYPE, UTF8, b"a"),
            (1, TYPE_1, UTF8, b""),
            (1, TYPE_2, UTF8, b"a"),
        ],
        None,
    ),
    (
        "the short type again",
        &[
            (1, SHORT_TYPE, UTF8, b"a"),
            (1, TYPE_1, UTF8, b""),
            (1, SHORT_TYPE, UTF8, b"ab"),
        ],
        Some((NameRule::RdnRepeat, 22)),
    ),
    (
        "the same types in another RDN",
        &[
            (1, TYPE_1, UTF8, b""),
            (1, TYPE_2, UTF8, b"a"),
            (2, TYPE_2, UTF8, b""),
            (2, TYPE_1, UTF8, b"a"),
        ],
        None,
    ),
    (
        "the second run repeats with its first",
        &[
            (1, TYPE_1, UTF8, b""),
            (1, TYPE_4, UTF8, b""),
            (1, TYPE_1, UTF8, b"a"),
            (1, TYPE_2, UTF8, b"a"),
        ],
        Some((NameRule::RdnRepeat, 22)),
    ),
    (
        "the second run repeats in its middle",
        &[
            (1, TYPE_1, UTF8, b""),
            (1, TYPE_4, UTF8, b""),
            (1, TYPE_2, UTF8, b"a"),
            (1, TYPE_4, UTF8, b"a"),
            (1, TYPE_5, UTF8, b"a"),
            (1, TYPE_3, UTF8, b"ab"),
        ],
        Some((NameRule::RdnRepeat, 32)),
    ),
    (
        "the last run repeats the first",
        &[
            (1, TYPE_1, UTF8, b""),
            (1, TYPE_4, UTF8, b""),
            (1, TYPE_2, UTF8, b"a"),
            (1, TYPE_5, UTF8, b"a"),
            (1, TYPE_3, UTF8, b"ab"),
            (1, TYPE_4, UTF8, b"ab"),
        ],
        Some((NameRule::RdnRepeat, 53)),
    ),
    (
        "the last run repeats the one before",
        &[
            (1, TYPE_1, UTF8, b""),
            (1, TYPE_4, UTF8, b""),
            (1, TYPE_2, UTF8, b"a"),
            (1, TYPE_5, UTF8, b"a"),
            (1, TYPE_3, UTF8, b"ab"),
            (1, TYPE_5, UTF8, b"ab"),
        ],
        Some((NameRule::RdnRepeat, 53)),
    ),
    (
        "both types of the second run",
        &[
            (1, TYPE_1, UTF8, b""),
            (1, TYPE_4, UTF8, b""),
            (1, TYPE_1, UTF8, b"a"),
            (1, TYPE_4, UTF8, b"a"),
        ],
        Some((NameRule::RdnRepeat, 22)),
    ),
    (
        "two of the last run, the later of the first run",
        &[
            (1, TYPE_4, UTF8, b""),
            (1, TYPE_2, UTF8, b"a"),
            (1, TYPE_1, UTF8, b"ab"),
            (1, TYPE_2, UTF8, b"ab"),
            (1, TYPE_4, UTF8, b"ab"),
        ],
        Some((NameRule::RdnRepeat, 34)),
    ),
    (
        "two runs repeat",
        &[
            (1, TYPE_2, UTF8, b""),
            (1, TYPE_4, UTF8, b""),
            (1, TYPE_3, UTF8, b"a"),
            (1, TYPE_4, UTF8, b"a"),
            (1, TYPE_2, UTF8, b"ab"),
        ],
        Some((NameRule::RdnRepeat, 32)),
    ),
    (
        "within a run, after another",
        &[
            (1, TYPE_2, UTF8, b""),
            (1, TYPE_1, UTF8, b"a"),
            (1, TYPE_3, UTF8, b"a"),
            (1, TYPE_3, UTF8, b"b"),
        ],
        Some((NameRule::RdnRepeat, 33)),
    ),
    (
        "lesser octets before a repeat",
        &[
            (1, TYPE_1, UTF8, b""),
            (1, TYPE_4, UTF8, b""),
            (1, TYPE_3, UTF8, b""),
            (1, TYPE_4, UTF8, b"a"),
        ],
        Some((NameRule::SetOrder, 22)),
    ),
    (
        "a repeat in lesser octets",
        &[
            (1, TYPE_2, UTF8, b"a"),
            (1, TYPE_4, UTF8, b"a"),
            (1, TYPE_2, UTF8, b""),
        ],
        Some((NameRule::RdnRepeat, 24)),
    ),
    (
        "a repeat before lesser octets",
        &[
            (1, TYPE_2, UTF8, b""),
            (1, TYPE_1, UTF8, b"a"),
            (1, TYPE_2, UTF8, b"a"),
            (1, TYPE_3, UTF8, b""),
        ],
        Some((NameRule::RdnRepeat, 23)),
    ),
    (
        "no string before a repeat",
        &[
            (1, TYPE_1, UTF8, b""),
            (1, TYPE_2, PRINTABLE, &[0x80]),
            (1, TYPE_1, UTF8, b"ab"),
        ],
        Some((NameRule::Text, 20)),
    ),
    (
        "a repeat before no string",
        &[
            (1, TYPE_1, UTF8, b""),
            (1, TYPE_2, UTF8, b"a"),
            (1, TYPE_1, UTF8, b"ab"),
            (1, TYPE_3, PRINTABLE, &[0x80, 0x80, 0x80]),
        ],
        Some((NameRule::RdnRepeat, 23)),
    ),
    (
        "a repeat that is no string",
        &[
            (1, TYPE_1, UTF8, b""),
            (1, TYPE_2, UTF8, b"a"),
            (1, TYPE_1, PRINTABLE, &[0x80, 0x80]),
        ],
        Some((NameRule::RdnRepeat, 23)),
    ),
];

/// The same, with a value that is no attribute.
const LAYOUT_ROWS: &[(&str, &[u8], Want)] = &[
    (
        "no attribute before a repeat",
        b"\x30\x20\x31\x1E\x30\x07\x06\x03\x55\x04\x01\x0C\x00\x30\x07\x06\x03\x55\x04\x04\x0C\x00\x05\x00\x30\x08\x06\x03\x55\x04\x01\x0C\x01\x61",
        Some((NameRule::NameLayout, 22)),
    ),
    (
        "a repeat before no attribute",
        b"\x30\x20\x31\x1E\x30\x07\x06\x03\x55\x04\x02\x0C\x00\x30\x07\x06\x03\x55\x04\x04\x0C\x00\x30\x08\x06\x03\x55\x04\x02\x0C\x01\x61\x05\x00",
        Some((NameRule::RdnRepeat, 22)),
    ),
    (
        "no attribute inside a run, before a repeat",
        b"\x30\x20\x31\x1E\x30\x07\x06\x03\x55\x04\x02\x0C\x00\x05\x00\x30\x07\x06\x03\x55\x04\x04\x0C\x00\x30\x08\x06\x03\x55\x04\x02\x0C\x01\x61",
        Some((NameRule::NameLayout, 13)),
    ),
];

#[test]
fn repeats_are_found(rt: HostRuntime) -> Result<(), Fail> {
    for (what, attributes, want) in ROWS.iter() {
        let octets = name_of(rt.alloc(), attributes)?;
        assert!(rt; Name::read(whole(&octets)?).err() == *want, "{what}");
    }
    for (what, octets, want) in LAYOUT_ROWS.iter() {
        assert!(rt; Name::read(whole(octets)?).err() == *want, "{what}");
    }
    Ok(())
}
