//! What `vectors` builds of texts in its notation.

use crate::rows::{FULL, ROWS};
use crate::{holds, read_certificate};
use cert::{CertFault, CertRule, Certificate, Extensions, Version};
use der_tree::{Tree, encode};
use names::Form;
use std::alloc::Global;
use std::process::Abort;
use std::test::Fail;
use vectors::{NotationFault, certificate, key_info, name, sign, tree_of};

#[test]
fn builds_the_octets(rt: HostRuntime) -> Result<(), Fail> {
    let alloc = rt.alloc();
    for (text, _, _, wanted) in ROWS.iter() {
        let octets = certificate(alloc, text)?;
        let printed = hex::encode(alloc, octets.as_slice())?;
        assert!(rt; printed.as_str() == *wanted, "{text}");
    }
    Ok(())
}

/// Texts that are none of the notation, and where.
const TEXTS: &[(&str, usize)] = &[
    ("", 0),
    ("ee", 2),
    ("ee(", 3),
    ("ee(T", 4),
    ("ee(T,R", 6),
    ("ee(T)", 4),
    ("ee(,R)", 3),
    ("ee(T,)", 5),
    ("ee(T,\u{e9})", 5),
    ("xx(T,R)", 0),
    (" ee(T,R)", 0),
    ("ee(T,R)x", 7),
    ("ee(T,R) {key K}", 7),
    ("ee(T,R){key K", 7),
    ("ee(T,R)key K}", 7),
    ("ee(T,R){key K} {empty}", 14),
    ("ee(T,R){}", 8),
    ("ee(T,R){empty}{full}", 15),
    ("ee(T,R){empty yes}", 8),
    ("ee(T,R){key}", 8),
    ("ee(T,R){key }", 12),
    ("ee(T,R){serial 5}", 15),
    ("ee(T,R){serial 0x}", 15),
    ("ee(T,R){from 250101000000}", 13),
    ("ee(T,R){until 2501010000000Z}", 14),
    ("ee(T,R){version 4}", 16),
    ("ca(R,R){pathlen -1}", 16),
    ("ca(R,R){pathlen 4294967296}", 16),
    ("ca(R,R){permit example}", 22),
    ("ca(R,R){exclude key K}", 16),
];

/// OBJECT IDENTIFIERs that there are not, and where.
const PURPOSES: &[(&str, usize)] = &[
    ("ee(T,R){purpose 1}", 16),
    ("ee(T,R){purpose 1..2}", 16),
    ("ee(T,R){purpose 1.40}", 16),
    ("ee(T,R){purpose 3.1}", 16),
    ("ee(T,R){purpose 1.2.x}", 16),
];

/// What the encoding has no place for: an INTEGER that is not the shortest, or none, and bits that are not the fewest.
const NOT_SPELLABLE: &[&str] = &[
    "ee(T,R){serial }",
    "ee(T,R){serial 0001}",
    "ee(T,R){usage 0801}",
];

/// Stops the test where the texts are not refused, each at its place.
fn are_refused(rt: &impl Abort, alloc: Global, rows: &[(&str, usize)]) {
    for (text, at) in rows.iter() {
        let fault = certificate(alloc, text).err();
        assert!(rt; fault == Some(NotationFault::Text(*at)), "{text}");
    }
}

#[test]
fn refuses_other_texts(rt: HostRuntime) {
    let alloc = rt.alloc();
    are_refused(&rt, alloc, TEXTS);
    are_refused(&rt, alloc, PURPOSES);
    for text in NOT_SPELLABLE.iter() {
        let fault = certificate(alloc, text).err();
        assert!(rt; fault == Some(NotationFault::NotSpellable), "{text}");
    }
}

#[test]
fn builds_certificates_that_are_read(rt: HostRuntime) -> Result<(), Fail> {
    let alloc = rt.alloc();
    for (text, _, is_read, _) in ROWS.iter() {
        let octets = certificate(alloc, text)?;
        let fault = Certificate::read(alloc, &octets).err();
        let wanted = if *is_read {
            None
        } else {
            Some(CertFault::Refused(CertRule::Version, 92))
        };
        assert!(rt; fault == wanted, "{text}");
    }
    Ok(())
}

#[test]
fn says_the_fields(rt: HostRuntime) -> Result<(), Fail> {
    let alloc = rt.alloc();
    let octets = certificate(alloc, "ee(T,R){version 1}{key K}{serial 0102}")?;
    let read = read_certificate(alloc, &octets)?;
    let issuer = name(alloc, "R")?;
    let subject = name(alloc, "T")?;
    let key = key_info(alloc, "K")?;
    holds(&rt, read.version == Version::V1, "the version");
    holds(
        &rt,
        read.serial.body == b"\x01\x02".as_slice(),
        "the serial number",
    );
    holds(&rt, read.issuer.raw() == issuer.as_slice(), "the issuer");
    holds(&rt, read.subject.raw() == subject.as_slice(), "the subject");
    holds(
        &rt,
        read.subject_public_key_info.value.whole == key.as_slice(),
        "the key",
    );
    holds(&rt, read.validity.not_before == 1_735_689_600, "notBefore");
    holds(&rt, read.validity.not_after == 1_767_225_600, "notAfter");
    Ok(())
}

#[test]
fn the_subject_may_be_empty(rt: HostRuntime) -> Result<(), Fail> {
    let alloc = rt.alloc();
    let octets = certificate(alloc, "ca(R,R){empty}")?;
    let read = read_certificate(alloc, &octets)?;
    holds(
        &rt,
        read.subject.is_empty() && !read.issuer.is_empty(),
        "only the subject",
    );
    Ok(())
}

/// The names and the constraints on names.
fn names_are_said(rt: &impl Abort, said: &Extensions<'_>) {
    assert!(rt; said.alternative_names.len() == 3);
    holds(
        rt,
        said.alternative_names[0].form() == Form::Dns,
        "a DNS name",
    );
    holds(
        rt,
        said.alternative_names[2].form() == Form::Ip,
        "an address",
    );
    let constraints = &said.name_constraints;
    assert!(rt; constraints.permitted.len() == 3 && constraints.excluded.len() == 2);
    holds(
        rt,
        constraints.excluded[0].inside(&constraints.permitted[0]),
        "inside",
    );
}

/// The purposes, and the extensions that are not recognised.
fn identifiers_are_said(rt: &impl Abort, said: &Extensions<'_>) {
    assert!(rt; said.purposes.len() == 2 && said.unrecognised.len() == 2);
    holds(
        rt,
        said.purposes[0].is(b"\x2B\x06\x01\x05\x05\x07\x03\x01"),
        "id-kp-serverAuth",
    );
    holds(rt, said.unrecognised[1].is(b"\x2A\x04"), "1.2.4");
}

#[test]
fn says_the_extensions(rt: HostRuntime) -> Result<(), Fail> {
    let alloc = rt.alloc();
    let (text, _, _, _) = ROWS[FULL];
    let octets = certificate(alloc, text)?;
    let read = read_certificate(alloc, &octets)?;
    let said = &read.extensions;
    let usage = said.key_usage.ok_or("keyUsage")?;
    holds(
        &rt,
        usage.has(5) && usage.has(6) && !usage.has(0),
        "keyUsage",
    );
    let basic = said.basic_constraints.ok_or("basicConstraints")?;
    holds(
        &rt,
        basic.ca && basic.path_length == Some(200),
        "basicConstraints",
    );
    holds(&rt, said.needs_policy_processing && said.no_check, "flags");
    names_are_said(&rt, said);
    identifiers_are_said(&rt, said);
    Ok(())
}

/// The signed part of a tree, signed anew.
#[test]
fn signs_anew(rt: HostRuntime) -> Result<(), Fail> {
    let alloc = rt.alloc();
    let Tree::Constructed(_, members) = tree_of(alloc, "ee(T,R)")? else {
        return Err(Fail::from("a SEQUENCE"));
    };
    let mut members = members;
    assert!(rt; members.len() == 3);
    let signed = members.remove(0);
    let anew = sign(alloc, signed, "K")?;
    let octets = encode(alloc, &anew)?;
    let wanted = certificate(alloc, "ee(T,R){signed K}")?;
    assert!(rt; octets.as_slice() == wanted.as_slice());
    Ok(())
}

/// For every refused allocation: the answer is that of ample memory, or that memory ran out.
#[test]
fn wants_memory_or_answers(rt: HostRuntime) {
    let (text, _, _, wanted) = ROWS[FULL];
    let answers = match certificate(rt.alloc(), text) {
        Ok(octets) => octets.len() * 2 == wanted.len(),
        Err(fault) => fault == NotationFault::Memory,
    };
    assert!(rt; answers);
}
