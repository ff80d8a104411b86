//! What no clause says: that the definitions are those of the standards, by rows worked by hand and taken from them.

use asn::whole;
use names::{
    Domain, Form, General, IpFault, IpRange, Name, Subtree, domain_laws, is_dns_name,
    is_ip_address, range_laws, subtree_laws,
};
use std::alloc::AllocError;
use std::test::Fail;

/// Octets, whether they are a DNS name, and whether they are the base of a constraint.
const DNS_NAMES: &[(&str, &[u8], bool, bool)] = &[
    ("a name", b"example.com", true, true),
    ("one label", b"a", true, true),
    ("nothing", b"", false, true),
    ("a dot", b".", false, false),
    ("an empty label", b"a..b", false, false),
    ("a dot before", b".example", false, true),
    ("two dots before", b"..example", false, false),
    ("a dot after", b"example.", false, false),
    ("a label of 63", &[b'a'; 63], true, true),
    ("a label of 64", &[b'a'; 64], false, false),
    ("a space", b"a b", false, false),
    ("octet 7F", &[0x61, 0x7F], false, false),
    ("octets 21 and 7E", &[0x21, 0x7E], true, true),
    ("a star", b"*.example", true, true),
];

/// Whether the octets are a DNS name, and a base, where they are to be.
fn are_forms(octets: &[u8], name: bool, base: bool) -> bool {
    is_dns_name(octets) == name && Domain::of_base(octets).is_some() == base
}

#[test]
fn dns_names_and_bases_are_read(rt: HostRuntime) -> Result<(), AllocError> {
    for (what, octets, name, base) in DNS_NAMES.iter() {
        assert!(rt; are_forms(octets, *name, *base), "{what}");
    }
    Ok(())
}

#[test]
fn dns_names_have_253_octets_at_most(rt: HostRuntime) -> Result<(), AllocError> {
    let mut octets = Vec::new(rt.alloc());
    for _ in 0..126 {
        octets.extend_from_slice(b"a.")?;
    }
    octets.push(b'b')?;
    assert!(rt;
        octets.len() == 253 && are_forms(&octets, true, true),
        "253 octets"
    );
    let mut dotted = vec![in rt.alloc(); b'.'; 1]?;
    dotted.extend_from_slice(octets.as_slice())?;
    assert!(rt; are_forms(&dotted, false, true), "a dot and 253 octets");
    octets.push(b'c')?;
    assert!(rt;
        octets.len() == 254 && are_forms(&octets, false, false),
        "254 octets"
    );
    Ok(())
}

fn covers(base: &str, name: &str) -> bool {
    match Domain::of_base(base.as_bytes()) {
        Some(domain) => domain.covers(name.as_bytes()),
        None => false,
    }
}

fn inside(inner: &str, outer: &str) -> bool {
    match (
        Domain::of_base(inner.as_bytes()),
        Domain::of_base(outer.as_bytes()),
    ) {
        (Some(inner), Some(outer)) => inner.inside(&outer),
        _ => false,
    }
}

/// A base, a name, and whether the name is covered.
const COVERED: &[(&str, &str, bool)] = &[
    ("example.com", "x.A.example.com", true),
    ("a.EXAMPLE.com", "x.A.example.com", true),
    ("a.example.com", "b.example.com", false),
    ("example.com", "example.com", true),
    ("example.com", "badexample.com", false),
    ("example.com", "com", false),
    (".example.com", "example.com", false),
    (".example.com", "a.example.com", true),
    ("", "a", true),
    ("*.example", "a.example", false),
    ("*.example", "*.example", true),
];

/// A base, another, and whether the first lies inside the second.
const INSIDE: &[(&str, &str, bool)] = &[
    (".example.com", "example.com", true),
    ("example.com", ".example.com", false),
    ("a.example.com", ".example.com", true),
    (".example.com", ".example.com", true),
    ("example.com", "", true),
    ("", "example.com", false),
    ("", "", true),
    ("badexample.com", "example.com", false),
];

#[test]
fn domains_cover_names(rt: HostRuntime) {
    for (base, name, want) in COVERED.iter() {
        assert!(rt; covers(base, name) == *want, "{name} in {base}");
    }
    for (inner, outer, want) in INSIDE.iter() {
        assert!(rt; inside(inner, outer) == *want, "{inner} inside {outer}");
    }
    domain_laws();
}

/// The bases of constraints on addresses, and how many ones their masks begin with.
const IP_BASES: &[(&str, &[u8], Result<u16, IpFault>)] = &[
    ("10/8", &[10, 0, 0, 0, 255, 0, 0, 0], Ok(8)),
    ("10.1/16", &[10, 1, 0, 0, 255, 255, 0, 0], Ok(16)),
    ("all", &[0, 0, 0, 0, 0, 0, 0, 0], Ok(0)),
    ("one address", &[10, 1, 2, 3, 255, 255, 255, 255], Ok(32)),
    (
        "192.168.32/19",
        &[192, 168, 32, 0, 255, 255, 224, 0],
        Ok(19),
    ),
    ("version 6", &[0xFF; 32], Ok(128)),
    (
        "a hole between octets",
        &[10, 0, 0, 0, 255, 0, 255, 0],
        Err(IpFault::Mask),
    ),
    (
        "a hole in an octet",
        &[10, 0, 0, 0, 0xFD, 0, 0, 0],
        Err(IpFault::Mask),
    ),
    ("an address alone", &[10, 0, 0, 0], Err(IpFault::Length)),
];

/// How many octets are an address.
const LENGTHS: &[(usize, bool)] = &[
    (4, true),
    (16, true),
    (0, false),
    (8, false),
    (15, false),
    (32, false),
];

#[test]
fn ip_bases_are_read(rt: HostRuntime) {
    for (what, base, want) in IP_BASES.iter() {
        let prefix = IpRange::of_base(base).map(|range| range.prefix);
        assert!(rt; prefix == *want, "{what}");
    }
    let octets = [0xFF; 32];
    for (count, want) in LENGTHS.iter() {
        let is_so = is_ip_address(octets.get(..*count).unwrap_or(&[])) == *want;
        assert!(rt; is_so, "{count} octets");
    }
}

fn ip_covers(base: &[u8], address: &[u8]) -> Option<bool> {
    IpRange::of_base(base)
        .ok()
        .map(|range| range.covers(address))
}

fn ip_inside(inner: &[u8], outer: &[u8]) -> Option<bool> {
    match (IpRange::of_base(inner), IpRange::of_base(outer)) {
        (Ok(inner), Ok(outer)) => Some(inner.inside(&outer)),
        _ => None,
    }
}

const TEN: &[u8] = &[10, 0, 0, 0, 255, 0, 0, 0];

const TEN_ONE: &[u8] = &[10, 1, 0, 0, 255, 255, 0, 0];

const EVERY: &[u8] = &[0; 8];

const UNMASKED: &[u8] = &[10, 1, 2, 3, 255, 0, 0, 0];

/// A base, an address, and whether the base covers it.
const ADDRESSES: &[(&str, &[u8], &[u8], bool)] = &[
    ("10.1.2.3 in 10/8", TEN, &[10, 1, 2, 3], true),
    ("11.1.2.3 in 10/8", TEN, &[11, 1, 2, 3], false),
    ("16 octets in 10/8", TEN, &[10; 16], false),
    ("any in 0/0", EVERY, &[255, 1, 2, 3], true),
    ("16 octets in 0/0", EVERY, &[0; 16], false),
    ("bits past the mask", UNMASKED, &[10, 9, 9, 9], true),
    ("10.1.255.255 in 10.1/16", TEN_ONE, &[10, 1, 255, 255], true),
    ("10.2.0.0 in 10.1/16", TEN_ONE, &[10, 2, 0, 0], false),
];

/// A base, another, and whether the first lies inside the second.
const RANGES: &[(&str, &[u8], &[u8], bool)] = &[
    ("10.1/16 inside 10/8", TEN_ONE, TEN, true),
    ("10/8 inside 10.1/16", TEN, TEN_ONE, false),
    ("10/8 inside 0/0", TEN, EVERY, true),
];

#[test]
fn ranges_cover_addresses(rt: HostRuntime) {
    for (what, base, address, want) in ADDRESSES.iter() {
        assert!(rt; ip_covers(base, address) == Some(*want), "{what}");
    }
    for (what, inner, outer, want) in RANGES.iter() {
        assert!(rt; ip_inside(inner, outer) == Some(*want), "{what}");
    }
    range_laws();
}

/// The name that the octets are.
fn read(octets: &[u8]) -> Result<Name<'_>, Fail> {
    Ok(Name::read(whole(octets)?)?)
}

#[test]
fn forms_are_told_apart(rt: HostRuntime) -> Result<(), Fail> {
    let name = read(&[0x30, 0x00])?;
    let range = IpRange::of_base(&[10, 0, 0, 0, 255, 0, 0, 0])?;
    let rows = [
        (
            General::Directory(name),
            Subtree::Directory(name),
            Form::Directory,
        ),
        (General::Dns(b"a"), Subtree::Dns(Domain::Every), Form::Dns),
        (General::Ip(&[10, 1, 2, 3]), Subtree::Ip(range), Form::Ip),
        (
            General::Other(6, b"a"),
            Subtree::Other(6, b"a"),
            Form::Other(6),
        ),
    ];
    for (general, subtree, form) in rows {
        let is_of_form = general.form() == form
            && subtree.form() == form
            && subtree.has_form(form)
            && !subtree.has_form(Form::Other(2));
        assert!(rt; is_of_form, "{form:?}");
        // a base of a form that is not processed covers no name
        let processed = form != Form::Other(6);
        let is_so = subtree.covers(&general) == processed && subtree.inside(&subtree) == processed;
        assert!(rt; is_so, "{form:?}");
    }
    Ok(())
}

/// C=SE
const SWEDEN_OCTETS: &[u8] = b"\x30\x0D\x31\x0B\x30\x09\x06\x03\x55\x04\x06\x13\x02SE";

/// C=SE, CN=Ann
const ANN_OCTETS: &[u8] =
    b"\x30\x1B\x31\x0B\x30\x09\x06\x03\x55\x04\x06\x13\x02SE\x31\x0C\x30\x0A\x06\x03\x55\x04\x03\x0C\x03Ann";

#[test]
fn subtrees_cover_names(rt: HostRuntime) -> Result<(), Fail> {
    let country = read(SWEDEN_OCTETS)?;
    let ann = read(ANN_OCTETS)?;
    let domain = Domain::of_base(b"example.com").ok_or("a base")?;
    let below = Domain::of_base(b".example.com").ok_or("a base with a dot")?;
    let ten = IpRange::of_base(&[10, 0, 0, 0, 255, 0, 0, 0])?;
    let every = IpRange::of_base(&[0; 8])?;
    let rows = [
        (Subtree::Directory(country), General::Directory(ann), true),
        (Subtree::Directory(ann), General::Directory(country), false),
        (Subtree::Dns(domain), General::Dns(b"a.example.com"), true),
        (Subtree::Dns(below), General::Dns(b"example.com"), false),
        (Subtree::Ip(ten), General::Ip(&[10, 1, 2, 3]), true),
        (Subtree::Ip(ten), General::Ip(&[11, 1, 2, 3]), false),
        (
            Subtree::Dns(Domain::Every),
            General::Ip(&[10, 1, 2, 3]),
            false,
        ),
    ];
    for (i, (subtree, general, want)) in rows.iter().enumerate() {
        assert!(rt; subtree.covers(general) == *want, "row {i}");
    }
    let pairs = [
        (Subtree::Directory(ann), Subtree::Directory(country)),
        (Subtree::Dns(below), Subtree::Dns(domain)),
        (Subtree::Ip(ten), Subtree::Ip(every)),
    ];
    for (i, (inner, outer)) in pairs.iter().enumerate() {
        assert!(rt; inner.inside(outer) && !outer.inside(inner), "pair {i}");
    }
    subtree_laws();
    Ok(())
}
