//! Subtrees in order, and which of many hold a name: rows worked by hand.

use names::{Domain, General, IpRange, Subtree};
use names_order::{Index, order, order_laws};
use std::alloc::{AllocError, Global};
use std::cmp::Ordering;
use std::test::Fail;

/// Two bases of DNS constraints, and how they compare.
const DOMAINS: &[(&str, &str, Ordering)] = &[
    ("example.com", "example.com", Ordering::Equal),
    ("EXAMPLE.com", "example.COM", Ordering::Equal),
    ("", "com", Ordering::Less),
    ("com", "example.com", Ordering::Less),
    ("example.com", ".example.com", Ordering::Less),
    (".example.com", "a.example.com", Ordering::Less),
    ("z.a.example.com", "b.example.com", Ordering::Less),
    ("z.b.com", "ab.com", Ordering::Less),
    ("a.example.org", "b.example.com", Ordering::Less),
    ("b.example.com", "a.example.org", Ordering::Greater),
];

fn subtree_of(base: &str) -> Subtree<'_> {
    match Domain::of_base(base.as_bytes()) {
        Some(domain) => Subtree::Dns(domain),
        None => Subtree::Other(0, base.as_bytes()),
    }
}

#[test]
fn domains_stand_in_order(rt: HostRuntime) {
    for (left, right, want) in DOMAINS.iter() {
        let answer = order(&subtree_of(left), &subtree_of(right));
        assert!(rt; answer == *want, "{left} and {right}");
    }
    order_laws();
}

/// More subtrees than are gone over one by one, in no order; some lie in others.
const BASES: &[&str] = &[
    "n07.example",
    "n03.example",
    "a.n03.example",
    "n12.example",
    ".n01.example",
    "n05.example",
    "n11.example",
    "n05.example",
    "N09.example",
    "b.c.n07.example",
    "n02.example",
    "n10.example",
    "n08.example",
    "n13.example",
];

/// Names, and whether they lie in one of these.
const NAMES: &[(&str, bool)] = &[
    ("n03.example", true),
    ("b.n03.example", true),
    ("a.n03.example", true),
    ("x.N09.EXAMPLE", true),
    ("a.n01.example", true),
    ("n01.example", false),
    ("n04.example", false),
    ("an03.example", false),
    ("example", false),
    ("n13.example", true),
    ("zz.example", false),
];

fn domains_of(
    alloc: Global,
    addresses: &[&'static [u8]],
) -> Result<Vec<Subtree<'static>>, AllocError> {
    let mut list = Vec::new(alloc);
    for base in BASES {
        list.push(subtree_of(base))?;
    }
    for address in addresses {
        list.push(Subtree::Ip(IpRange {
            address,
            prefix: 12,
        }))?;
    }
    Ok(list)
}

#[test]
fn names_are_found(rt: HostRuntime) -> Result<(), Fail> {
    let index = Index::of(rt.alloc(), domains_of(rt.alloc(), &[])?)?;
    assert_eq!(rt; index.subtrees().len(), 14);
    for (name, want) in NAMES.iter() {
        let covers = index.covers(&General::Dns(name.as_bytes()));
        assert!(rt; covers == *want, "{name}");
    }
    assert!(rt; index.holds(&subtree_of(".n02.example")));
    assert!(rt; !index.holds(&subtree_of("example")));
    Ok(())
}

/// Addresses, and whether they lie in 10.16.0.0/12 or 192.0.0.0/12.
const ADDRESSES: &[(&[u8], bool)] = &[
    (&[10, 16, 0, 0], true),
    (&[10, 31, 255, 255], true),
    (&[10, 32, 0, 0], false),
    (&[10, 15, 255, 255], false),
    (&[192, 15, 0, 1], true),
    (&[192, 16, 0, 1], false),
    (&[10, 16, 0, 0, 0, 0, 0, 0, 0, 0, 0, 0, 0, 0, 0, 0], false),
];

#[test]
fn addresses_are_found(rt: HostRuntime) -> Result<(), Fail> {
    let index = Index::of(rt.alloc(), domains_of(rt.alloc(), &[])?)?;
    let ranges = domains_of(rt.alloc(), &[&[192, 0, 0, 0], &[10, 16, 0, 0]])?;
    let more = index.with(rt.alloc(), &ranges)?;
    assert_eq!(rt; more.subtrees().len(), 30);
    for (address, want) in ADDRESSES.iter() {
        let covers = more.covers(&General::Ip(address));
        assert!(rt; covers == *want, "{address:?}");
    }
    Ok(())
}
