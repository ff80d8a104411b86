//! Trees, parsed and encoded.

use crate::holds;
use asn::{Fault, Rule, check};
use der_tree::{EncodeFault, Tree, encode, parse_tree};
use std::alloc::Global;
use std::test::Fail;

/// SEQUENCE { BOOLEAN TRUE, NULL, INTEGER -128 }.
const ROW: [u8; 10] = [0x30, 0x08, 0x01, 0x01, 0xFF, 0x05, 0x00, 0x02, 0x01, 0x80];

/// Whether the tree is a primitive value with this identifier octet and so many octets of contents.
fn is_primitive(tree: &Tree, identifier: u8, size: usize) -> bool {
    matches!(tree, Tree::Primitive(tag, contents) if *tag == identifier && contents.len() == size)
}

#[test]
fn trees_are_parsed(rt: HostRuntime) -> Result<(), Fail> {
    match parse_tree(rt.alloc(), &ROW)? {
        Tree::Constructed(0x30, inner) => {
            assert_eq!(rt; inner.len(), 3);
            holds(&rt, is_primitive(&inner[0], 0x01, 1), "TRUE");
            holds(&rt, is_primitive(&inner[1], 0x05, 0), "NULL");
            holds(&rt, is_primitive(&inner[2], 0x02, 1), "-128");
        }
        _ => return Err(Fail::from("a SEQUENCE")),
    }
    let refused = parse_tree(rt.alloc(), &[0x05, 0x00, 0x00]);
    let is_refused = matches!(refused, Err(Fault::Refused(Rule::Trailing, 2)));
    holds(&rt, is_refused, "an octet behind");
    Ok(())
}

fn primitive(alloc: Global, identifier: u8, size: usize) -> Result<Tree, Fail> {
    Ok(Tree::Primitive(identifier, vec![in alloc; 0u8; size]?))
}

/// Lengths on both sides of each form of the length octets: what the encoding begins with, and its size.
const LENGTHS: &[(usize, &[u8], usize)] = &[
    (0, &[0x04, 0x00], 2),
    (127, &[0x04, 0x7F], 129),
    (128, &[0x04, 0x81, 0x80], 131),
    (256, &[0x04, 0x82, 0x01, 0x00], 260),
    (65_535, &[0x04, 0x82, 0xFF, 0xFF], 65_539),
    (65_536, &[0x04, 0x83, 0x01, 0x00, 0x00], 65_541),
];

#[test]
fn lengths_are_encoded(rt: HostRuntime) -> Result<(), Fail> {
    for (size, front, total) in LENGTHS.iter() {
        let octets = encode(rt.alloc(), &primitive(rt.alloc(), 0x04, *size)?)?;
        let is_so = octets.len() == *total && octets.starts_with(front) && check(&octets).is_ok();
        assert!(rt; is_so, "{size}");
    }
    let row = encode(rt.alloc(), &parse_tree(rt.alloc(), &ROW)?)?;
    holds(&rt, row.as_slice() == &ROW[..], "what was parsed");
    Ok(())
}

const NO_TREES: &[(u8, usize, &str)] = &[
    (0x30, 0, "a primitive SEQUENCE"),
    (0x02, 0, "an empty INTEGER"),
    (0x1F, 1, "a high tag number"),
    (0x05, 1, "a NULL with contents"),
    (0x24, 1, "a constructed identifier"),
];

#[test]
fn trees_without_an_encoding_are_refused(rt: HostRuntime) -> Result<(), Fail> {
    let alloc = rt.alloc();
    for (identifier, size, what) in NO_TREES.iter() {
        let answer = encode(alloc, &primitive(alloc, *identifier, *size)?);
        assert!(rt; matches!(answer, Err(EncodeFault::NotSpellable)), "{what}");
    }
    let deep = encode(alloc, &nest(alloc, 33)?);
    holds(
        &rt,
        matches!(deep, Err(EncodeFault::NotSpellable)),
        "33 deep",
    );
    holds(
        &rt,
        encode(alloc, &nest(alloc, 32)?)?.len() == 64,
        "32 deep",
    );
    let (no_spelling, memory) = (EncodeFault::NotSpellable, EncodeFault::Memory);
    holds(
        &rt,
        no_spelling.number() == 9 && memory.number() == 8,
        "numbers",
    );
    holds(&rt, no_spelling.name() == "NotSpellable", "a name");
    holds(&rt, memory.name() == "Memory", "the name of want of memory");
    Ok(())
}

/// SEQUENCEs in one another, the innermost empty.
fn nest(alloc: Global, depth: usize) -> Result<Tree, Fail> {
    let mut tree = Tree::Constructed(0x30, Vec::new(alloc));
    for _ in 1..depth {
        tree = Tree::Constructed(0x30, vec![in alloc; tree]?);
    }
    Ok(tree)
}

/// Holds whether an allocation is refused or not: `rt try --test --fail-alloc N` refuses the Nth.
#[test]
fn wants_memory_or_answers(rt: HostRuntime) {
    match parse_tree(rt.alloc(), &ROW) {
        Err(fault) => assert_eq!(rt; fault, Fault::Memory),
        Ok(tree) => match encode(rt.alloc(), &tree) {
            Err(fault) => assert_eq!(rt; fault, EncodeFault::Memory),
            Ok(octets) => assert!(rt; octets.as_slice() == &ROW[..]),
        },
    }
}
