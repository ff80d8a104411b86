//! The revocation lists that `vectors` builds of texts in its notation.

use crate::holds;
use crate::rows::LISTS;
use der_tree::{Tree, encode};
use path_verifiers::Verifier;
use statements_crl::Crl;
use std::alloc::Global;
use std::test::Fail;
use vectors::{NotationFault, ToyVerifier, key_info, revocation_list, revocation_list_tree, sign};

#[test]
fn builds_the_octets_of_lists(rt: HostRuntime) -> Result<(), Fail> {
    let alloc = rt.alloc();
    for (text, _, _, wanted) in LISTS.iter() {
        let octets = revocation_list(alloc, text)?;
        let printed = hex::encode(alloc, octets.as_slice())?;
        assert!(rt; printed.as_str() == *wanted, "{text}");
    }
    Ok(())
}

/// Texts that are none of the notation, and where.
const TEXTS: &[(&str, usize)] = &[
    ("", 0),
    ("crl", 3),
    ("crl(", 4),
    ("crl(R", 5),
    ("crl(R)", 5),
    ("crl(R,5", 7),
    ("ee(R,5)", 0),
    ("crl(,5)", 4),
    ("crl(R,)", 6),
    ("crl(R,x)", 6),
    ("crl(R,4294967296)", 6),
    ("crl(R,5,)", 8),
    ("crl(R,5,05 1)", 8),
    ("crl(R,5,[05 1)", 8),
    ("crl(R,5,[5 1])", 9),
    ("crl(R,5,[05 x])", 12),
    ("crl(R,5,[05 1] [06])", 14),
    ("crl(R,5)x", 8),
    ("crl(R,5){signed}", 9),
    ("crl(R,5){signed }", 16),
    ("crl(R,5){scope all}", 15),
    ("crl(R,5){this 250601000000}", 14),
    ("crl(R,5){next 2025}", 14),
    ("crl(R,5){number 5}", 16),
    ("crl(R,5){key K}", 9),
    ("crl(R,5){signed X}{full}", 19),
];

/// What the encoding has no place for: an INTEGER of no octets, or not of the fewest.
const NOT_SPELLABLE: &[&str] = &["crl(R,5){number }", "crl(R,5){number 0005}", "crl(R,5,[])"];

#[test]
fn refuses_other_texts_of_lists(rt: HostRuntime) {
    let alloc = rt.alloc();
    for (text, at) in TEXTS.iter() {
        let fault = revocation_list(alloc, text).err();
        assert!(rt; fault == Some(NotationFault::Text(*at)), "{text}");
    }
    for text in NOT_SPELLABLE.iter() {
        let fault = revocation_list(alloc, text).err();
        assert!(rt; fault == Some(NotationFault::NotSpellable), "{text}");
    }
}

/// Whether the toy signature of the list is accepted under the key, and not under the other one.
fn is_signed_by(list: &Crl<'_>, key: &[u8], other: &[u8]) -> bool {
    let (algorithm, message) = (list.algorithm.value.whole, list.tbs.whole);
    let signature = list.signature.octets();
    ToyVerifier.judge(algorithm, key, message, signature)
        && !ToyVerifier.judge(algorithm, other, message, signature)
}

/// Whether the list is read and signed by the signer.
fn is_read(alloc: Global, octets: &[u8], signer: &str) -> Result<bool, Fail> {
    let key = key_info(alloc, signer)?;
    let other = key_info(alloc, "other")?;
    Ok(match Crl::read(alloc, octets) {
        Ok(list) => is_signed_by(&list, &key, &other),
        Err(_) => false,
    })
}

#[test]
fn builds_lists_that_are_read(rt: HostRuntime) -> Result<(), Fail> {
    let alloc = rt.alloc();
    for (text, signer, wanted, _) in LISTS.iter() {
        let octets = revocation_list(alloc, text)?;
        let is_so = is_read(alloc, &octets, signer)? == *wanted;
        assert!(rt; is_so, "{text}");
    }
    Ok(())
}

/// The signed part of a list's tree, signed anew.
#[test]
fn signs_a_list_anew(rt: HostRuntime) -> Result<(), Fail> {
    let alloc = rt.alloc();
    let Tree::Constructed(_, members) = revocation_list_tree(alloc, "crl(R,5)")? else {
        return Err(Fail::from("a SEQUENCE"));
    };
    let mut members = members;
    assert!(rt; members.len() == 3);
    let signed = members.remove(0);
    let octets = encode(alloc, &sign(alloc, signed, "K")?)?;
    let wanted = revocation_list(alloc, "crl(R,5){signed K}")?;
    holds(&rt, octets.as_slice() == wanted.as_slice(), "signed by K");
    Ok(())
}

/// For every refused allocation: the answer is that of ample memory, or that memory ran out.
#[test]
fn wants_memory_or_answers(rt: HostRuntime) {
    let (text, _, _, wanted) = LISTS[2];
    let answers = match revocation_list(rt.alloc(), text) {
        Ok(octets) => octets.len() * 2 == wanted.len(),
        Err(fault) => fault == NotationFault::Memory,
    };
    assert!(rt; answers);
}
