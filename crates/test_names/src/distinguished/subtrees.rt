//! Directory names among many subtrees, of which more than are compared one by one.

use super::*;
use names::{General, Subtree};
use names_order::Index;
use std::slice::from_ref;

const SWEDEN: Row<'_> = (1, COUNTRY, PRINTABLE, b"SE");

const ANN: Row<'_> = (3, COMMON_NAME, UTF8, b"Ann");

/// How many organizations there are.
const COUNT: u8 = 40;

/// An organization by its number: `Org 00` to `Org 39`.
fn organization(alloc: Global, number: u8) -> Result<Vec<u8>, Fail> {
    let digits = [b'0' + number / 10 % 10, b'0' + number % 10];
    let mut text = Vec::new(alloc);
    text.extend_from_slice(b"Org ")?;
    text.extend_from_slice(&digits)?;
    name_of(alloc, &[SWEDEN, (2, ORGANIZATION, PRINTABLE, &text)])
}

/// The organizations in no order, and one person in one of them.
fn bases(alloc: Global) -> Result<Vec<Vec<u8>>, Fail> {
    let mut list = Vec::new(alloc);
    for i in 0..COUNT {
        list.push(organization(alloc, i * 3 % COUNT)?)?;
    }
    list.push(name_of(alloc, &[SWEDEN, (2, ORGANIZATION, UTF8, b"ORG 07"), ANN])?)?;
    Ok(list)
}

fn index_of<'a>(alloc: Global, bases: &'a [Vec<u8>]) -> Result<Index<'a>, Fail> {
    let mut list = Vec::new(alloc);
    for base in bases {
        list.push(Subtree::Directory(read(base)?))?;
    }
    Ok(Index::of(alloc, list)?)
}

/// Names, and whether they lie in one of these.
const FOUND: &[(&str, &[Row<'_>], bool)] = &[
    (
        "the first",
        &[SWEDEN, (2, ORGANIZATION, UTF8, b"Org 00")],
        true,
    ),
    (
        "the last",
        &[SWEDEN, (2, ORGANIZATION, UTF8, b"Org 39")],
        true,
    ),
    (
        "in one of them",
        &[SWEDEN, (2, ORGANIZATION, PRINTABLE, b"Org 12"), ANN],
        true,
    ),
    (
        "where one lies in another",
        &[SWEDEN, (2, ORGANIZATION, PRINTABLE, b"Org 07"), ANN],
        true,
    ),
    (
        "beside the inner one",
        &[
            SWEDEN,
            (2, ORGANIZATION, PRINTABLE, b"Org 07"),
            (3, COMMON_NAME, UTF8, b"Bo"),
        ],
        true,
    ),
    (
        "spelled differently",
        &[
            (1, COUNTRY, UTF8, b"se"),
            (2, ORGANIZATION, IA5, b"  oRG   21 "),
            ANN,
        ],
        true,
    ),
    ("above all", &[SWEDEN], false),
    ("the empty name", &[], false),
    (
        "behind all",
        &[SWEDEN, (2, ORGANIZATION, PRINTABLE, b"Org 40")],
        false,
    ),
    (
        "a shorter value",
        &[SWEDEN, (2, ORGANIZATION, PRINTABLE, b"Org 1")],
        false,
    ),
    (
        "a longer value",
        &[SWEDEN, (2, ORGANIZATION, PRINTABLE, b"Org 120")],
        false,
    ),
    (
        "a value of another type",
        &[SWEDEN, (2, ORGANIZATION, TELETEX, b"Org 12")],
        false,
    ),
    (
        "another attribute",
        &[SWEDEN, (2, COMMON_NAME, PRINTABLE, b"Org 12")],
        false,
    ),
    (
        "two attributes",
        &[
            SWEDEN,
            (2, COMMON_NAME, UTF8, b"Ann"),
            (2, ORGANIZATION, PRINTABLE, b"Org 12"),
        ],
        false,
    ),
    (
        "another country",
        &[
            (1, COUNTRY, PRINTABLE, b"NO"),
            (2, ORGANIZATION, PRINTABLE, b"Org 12"),
        ],
        false,
    ),
];

/// What is not answered right, if something is.
fn mistake(alloc: Global, index: &Index<'_>) -> Result<Option<&'static str>, Fail> {
    for (what, rows, want) in FOUND.iter() {
        let octets = name_of(alloc, rows)?;
        let name = read(&octets)?;
        let covers = index.covers(&General::Directory(name));
        let holds = index.holds(&Subtree::Directory(name));
        if covers != *want || holds != *want {
            return Ok(Some(*what));
        }
    }
    Ok(None)
}

#[test]
fn directory_names_are_found(rt: HostRuntime) -> Result<(), Fail> {
    let bases = bases(rt.alloc())?;
    let index = index_of(rt.alloc(), &bases)?;
    assert_eq!(rt; mistake(rt.alloc(), &index)?, None);
    assert!(rt; !index.covers(&General::Dns(b"a.example")));
    Ok(())
}

/// An index that is joined of a long one and a short one.
fn joined_index_of<'a>(alloc: Global, bases: &'a [Vec<u8>]) -> Result<Index<'a>, Fail> {
    let (front, back) = bases.split_at(bases.len() - bases.len() / 4);
    let first = index_of(alloc, front)?;
    let second = index_of(alloc, back)?;
    Ok(Index::joined(alloc, from_ref(&first), second)?)
}

#[test]
fn directory_names_are_found_in_joined_indexes(rt: HostRuntime) -> Result<(), Fail> {
    let bases = bases(rt.alloc())?;
    let index = joined_index_of(rt.alloc(), &bases)?;
    assert_eq!(rt; index.subtrees().len(), bases.len());
    assert_eq!(rt; mistake(rt.alloc(), &index)?, None);
    Ok(())
}

/// An organization by its number, without a country.
fn short_name(alloc: Global, number: u8) -> Result<Vec<u8>, AllocError> {
    let mut octets = Vec::new(alloc);
    octets.extend_from_slice(b"\x30\x11\x31\x0F\x30\x0D\x06\x03\x55\x04\x0A\x0C\x06Org ")?;
    octets.extend_from_slice(&[b'0' + number / 10 % 10, b'0' + number % 10])?;
    Ok(octets)
}

/// The name that the octets are, if they are one.
fn name_in(octets: &[u8]) -> Option<Name<'_>> {
    Name::read(whole(octets).ok()?).ok()
}

fn is_found(index: &Index<'_>, octets: &[u8]) -> bool {
    match name_in(octets) {
        Some(name) => index.covers(&General::Directory(name)),
        None => false,
    }
}

fn short_names(alloc: Global) -> Result<Vec<Vec<u8>>, AllocError> {
    let mut octets = Vec::new(alloc);
    for i in 0..COUNT {
        octets.push(short_name(alloc, i * 3 % COUNT)?)?;
    }
    Ok(octets)
}

fn index_of_short<'a>(alloc: Global, octets: &'a [Vec<u8>]) -> Result<Index<'a>, AllocError> {
    let mut list = Vec::new(alloc);
    for name in octets {
        if let Some(name) = name_in(name) {
            list.push(Subtree::Directory(name))?;
        }
    }
    Index::of(alloc, list)
}

/// An index that is joined of two of half of the names each.
fn joined_of_short<'a>(alloc: Global, octets: &'a [Vec<u8>]) -> Result<Index<'a>, AllocError> {
    let (front, back) = octets.split_at(octets.len() / 2);
    let first = index_of_short(alloc, front)?;
    let second = index_of_short(alloc, back)?;
    Index::joined(alloc, from_ref(&first), second)
}

/// Whether a name in one of these is found, and one beside them is not.
fn finds_and_misses(alloc: Global) -> Result<bool, AllocError> {
    let octets = short_names(alloc)?;
    let index = joined_of_short(alloc, &octets)?;
    let inside = short_name(alloc, 31)?;
    let beside = short_name(alloc, 41)?;
    Ok(is_found(&index, &inside) && !is_found(&index, &beside))
}

/// Names are found whether there is memory for their keys or not.
#[test]
fn finding_wants_memory_or_answers(rt: HostRuntime) {
    match finds_and_misses(rt.alloc()) {
        Ok(answer) => assert!(rt; answer),
        Err(AllocError) => (),
    }
}
