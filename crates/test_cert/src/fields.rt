//! Whole certificates: what is read of them.

use crate::building::{
    ALGORITHM, ISSUER, KEY, PLAIN, SERIAL, SIGNATURE, SUBJECT, TAIL, VALIDITY, VERSION,
    certificate_of, plain_but, with_list,
};
use crate::holds;
use cert::{CertFault, CertRule, Certificate, Extensions, Version};
use names::Form;
use std::alloc::{AllocError, Global};
use std::process::Abort;
use std::test::Fail;

#[test]
fn the_fields_of_a_plain_certificate_are_read(rt: HostRuntime) -> Result<(), Fail> {
    let alloc = rt.alloc();
    let octets = certificate_of(alloc, &PLAIN)?;
    let read = Certificate::read(alloc, &octets).map_err(|_| "a certificate")?;
    assert!(rt; octets.len() == 100, "100 octets");
    holds(&rt, read.octets == octets.as_slice(), "its octets");
    holds(&rt, read.tbs.whole == &octets[2..90], "the signed part");
    holds(&rt, read.version == Version::V3, "v3");
    holds(
        &rt,
        read.serial.body == b"\x05".as_slice(),
        "the serial number",
    );
    holds(
        &rt,
        read.algorithm.value.whole == PLAIN[ALGORITHM],
        "the algorithm",
    );
    holds(&rt, read.issuer.raw() == PLAIN[ISSUER], "the issuer");
    holds(&rt, read.validity.not_before == 1_735_689_600, "notBefore");
    holds(&rt, read.validity.not_after == 1_767_225_600, "notAfter");
    holds(&rt, read.subject.raw() == PLAIN[SUBJECT], "the subject");
    let key_info = &read.subject_public_key_info;
    holds(
        &rt,
        key_info.value.whole == PLAIN[KEY],
        "subjectPublicKeyInfo",
    );
    holds(&rt, key_info.key.octets() == b"K".as_slice(), "the key");
    holds(
        &rt,
        read.signature.octets() == b"\xEE".as_slice(),
        "the signature",
    );
    holds(&rt, !read.self_issued(), "not self-issued");
    Ok(())
}

/// The offsets are counted by hand.
#[test]
fn the_fields_of_a_plain_certificate_have_their_places(rt: HostRuntime) -> Result<(), Fail> {
    let alloc = rt.alloc();
    let octets = certificate_of(alloc, &PLAIN)?;
    let read = Certificate::read(alloc, &octets).map_err(|_| "a certificate")?;
    let key_info = &read.subject_public_key_info;
    let rows: [(usize, usize, &str); 9] = [
        (read.tbs.at, 2, "the signed part"),
        (read.serial.at, 9, "the serial number"),
        (read.algorithm.value.at, 12, "the algorithm"),
        (read.issuer.offset(), 18, "the issuer"),
        (read.subject.offset(), 64, "the subject"),
        (key_info.value.at, 78, "subjectPublicKeyInfo"),
        (key_info.algorithm.value.at, 80, "the algorithm of the key"),
        (key_info.key.value.at, 86, "the key"),
        (read.signature.value.at, 96, "the signature"),
    ];
    for (found, at, what) in rows {
        assert!(rt; found == at, "{what}");
    }
    let oid: &[u8] = &[0x2A, 0x03];
    holds(&rt, read.algorithm.oid.is(oid), "the type of the algorithm");
    holds(&rt, key_info.algorithm.oid.is(oid), "the type of the key");
    Ok(())
}

#[test]
fn a_plain_certificate_says_nothing_more(rt: HostRuntime) -> Result<(), Fail> {
    let alloc = rt.alloc();
    let octets = certificate_of(alloc, &PLAIN)?;
    let read = Certificate::read(alloc, &octets).map_err(|_| "a certificate")?;
    let said = &read.extensions;
    holds(&rt, said.key_usage.is_none(), "no keyUsage");
    holds(&rt, said.basic_constraints.is_none(), "no basicConstraints");
    holds(&rt, said.alternative_names.is_empty(), "no names");
    holds(&rt, said.purposes.is_empty(), "no purposes");
    let constraints = &said.name_constraints;
    holds(&rt, constraints.permitted.is_empty(), "nothing permitted");
    holds(&rt, constraints.excluded.is_empty(), "nothing excluded");
    holds(
        &rt,
        !said.needs_policy_processing && !said.no_check,
        "no flag",
    );
    holds(&rt, said.unrecognised.is_empty(), "nothing unrecognised");
    Ok(())
}

/// Other components with which a certificate is read.
const ACCEPTED: &[(&str, usize, &[u8])] = &[
    ("version 1", VERSION, b""),
    ("version 2", VERSION, b"\xA0\x03\x02\x01\x01"),
    ("a negative serial number", SERIAL, b"\x02\x01\xFF"),
    ("an empty subject", SUBJECT, b"\x30\x00"),
    (
        "a key with unused bits",
        KEY,
        b"\x30\x0A\x30\x04\x06\x02\x2A\x03\x03\x02\x07\x80",
    ),
    (
        "a key of no bits",
        KEY,
        b"\x30\x09\x30\x04\x06\x02\x2A\x03\x03\x01\x00",
    ),
    ("unique identifiers", TAIL, b"\x81\x01\x00\x82\x02\xFF\xFF"),
    ("a signature of no bits", SIGNATURE, b"\x03\x01\x00"),
    (
        "notAfter before notBefore",
        VALIDITY,
        b"\x30\x1E\x17\x0D260101000000Z\x17\x0D250101000000Z",
    ),
];

#[test]
fn other_certificates_are_read(rt: HostRuntime) -> Result<(), Fail> {
    let alloc = rt.alloc();
    for (what, component, octets) in ACCEPTED.iter() {
        let certificate = plain_but(alloc, *component, octets)?;
        assert!(rt; Certificate::read(alloc, &certificate).is_ok(), "{what}");
    }
    let mut components = PLAIN;
    components[SUBJECT] = b"\x30\x0C\x31\x0A\x30\x08\x06\x03\x55\x04\x03\x0C\x01a";
    let certificate = certificate_of(alloc, &components)?;
    let read = Certificate::read(alloc, &certificate).map_err(|_| "a certificate")?;
    assert!(rt; read.self_issued(), "names that match, in other octets");
    Ok(())
}

/// Extensions of each kind, one a line.
const EXTENSIONS: &[&[u8]] = &[
    // keyUsage, critical: bits 5 and 6
    b"\x30\x0E\x06\x03\x55\x1D\x0F\x01\x01\xFF\x04\x04\x03\x02\x01\x06",
    // subjectAltName: a DNS name and an address
    b"\x30\x13\x06\x03\x55\x1D\x11\x04\x0C\x30\x0A\x82\x02ab\x87\x04\x0A\x00\x00\x01",
    // basicConstraints, critical: cA, path length 0
    b"\x30\x12\x06\x03\x55\x1D\x13\x01\x01\xFF\x04\x08\x30\x06\x01\x01\xFF\x02\x01\x00",
    // nameConstraints, critical: permits example, excludes x.example
    b"\x30\x28\x06\x03\x55\x1D\x1E\x01\x01\xFF\x04\x1E\x30\x1C\xA0\x0B\x30\x09\x82\x07example\xA1\x0D\x30\x0B\x82\x09x.example",
    // certificatePolicies, critical
    b"\x30\x0C\x06\x03\x55\x1D\x20\x01\x01\xFF\x04\x02\x05\x00",
    // extKeyUsage: id-kp-OCSPSigning
    b"\x30\x13\x06\x03\x55\x1D\x25\x04\x0C\x30\x0A\x06\x08\x2B\x06\x01\x05\x05\x07\x03\x09",
    // policyConstraints, critical, with a value that is not looked at
    b"\x30\x0B\x06\x03\x55\x1D\x24\x01\x01\xFF\x04\x01\xFF",
    // id-pkix-ocsp-nocheck, critical
    b"\x30\x12\x06\x09\x2B\x06\x01\x05\x05\x07\x30\x01\x05\x01\x01\xFF\x04\x02\x05\x00",
    // 1.2.3, critical
    b"\x30\x09\x06\x02\x2A\x03\x01\x01\xFF\x04\x00",
    // 1.2.4
    b"\x30\x06\x06\x02\x2A\x04\x04\x00",
];

/// The plain certificate with these extensions.
fn with_extensions(alloc: Global, extensions: &[&[u8]]) -> Result<Vec<u8>, AllocError> {
    let mut list = Vec::new(alloc);
    for extension in extensions.iter() {
        list.extend_from_slice(extension)?;
    }
    with_list(alloc, &list)
}

/// Pushes an extension of 8 octets, whose type is 1.2 and the number.
fn push_type(list: &mut Vec<u8>, number: u8) -> Result<(), AllocError> {
    list.extend_from_slice(b"\x30\x06\x06\x02\x2A")?;
    list.push(number)?;
    list.extend_from_slice(b"\x04\x00")
}

/// The plain certificate with extensions of so many types, 1.2.1 and on, and behind them one of the last type.
fn with_types(alloc: Global, count: u8, last: u8) -> Result<Vec<u8>, AllocError> {
    let mut list = Vec::new(alloc);
    for number in 1..=count {
        push_type(&mut list, number)?;
    }
    push_type(&mut list, last)?;
    with_list(alloc, &list)
}

fn tells_usage(rt: &impl Abort, said: &Extensions<'_>) -> Result<(), Fail> {
    let usage = said.key_usage.ok_or("keyUsage")?;
    holds(rt, usage.bits == b"\x06".as_slice(), "the bits of keyUsage");
    holds(
        rt,
        usage.has(5) && usage.has(6) && !usage.has(0),
        "its uses",
    );
    let basic = said.basic_constraints.ok_or("basicConstraints")?;
    holds(
        rt,
        basic.ca && basic.path_length == Some(0),
        "a path length of 0",
    );
    Ok(())
}

#[test]
fn extensions_of_each_kind_are_read(rt: HostRuntime) -> Result<(), Fail> {
    let alloc = rt.alloc();
    let octets = with_extensions(alloc, EXTENSIONS)?;
    let read = Certificate::read(alloc, &octets).map_err(|_| "a certificate")?;
    let said = &read.extensions;
    tells_usage(&rt, said)?;
    assert!(rt; said.alternative_names.len() == 2, "two names");
    holds(
        &rt,
        said.alternative_names[0].form() == Form::Dns,
        "a DNS name",
    );
    holds(
        &rt,
        said.alternative_names[1].form() == Form::Ip,
        "an address",
    );
    let permitted = &said.name_constraints.permitted;
    let excluded = &said.name_constraints.excluded;
    assert!(rt;
        permitted.len() == 1 && excluded.len() == 1,
        "a subtree in each list"
    );
    holds(
        &rt,
        excluded[0].inside(&permitted[0]),
        "x.example in example",
    );
    Ok(())
}

#[test]
fn extensions_are_noted(rt: HostRuntime) -> Result<(), Fail> {
    let alloc = rt.alloc();
    let octets = with_extensions(alloc, EXTENSIONS)?;
    let read = Certificate::read(alloc, &octets).map_err(|_| "a certificate")?;
    let said = &read.extensions;
    assert!(rt; said.purposes.len() == 1, "one purpose");
    holds(
        &rt,
        said.purposes[0].is(b"\x2B\x06\x01\x05\x05\x07\x03\x09"),
        "OCSP signing",
    );
    holds(
        &rt,
        said.needs_policy_processing && said.no_check,
        "both flags",
    );
    assert!(rt; said.unrecognised.len() == 2, "two that are not recognised");
    let no_check = b"\x2B\x06\x01\x05\x05\x07\x30\x01\x05";
    holds(
        &rt,
        said.unrecognised[0].is(no_check),
        "id-pkix-ocsp-nocheck",
    );
    holds(&rt, said.unrecognised[1].is(b"\x2A\x03"), "1.2.3");
    Ok(())
}

/// How many types there are, the number of one behind them, and where that is refused as repeated.
const MANY: &[(u8, u8, Option<usize>)] = &[
    (16, 17, None),
    (17, 18, None),
    (16, 1, Some(226)),
    (17, 1, Some(234)),
    (17, 16, Some(234)),
    (17, 17, Some(234)),
];

#[test]
fn many_types_are_told_apart(rt: HostRuntime) -> Result<(), Fail> {
    let alloc = rt.alloc();
    for (count, last, at) in MANY.iter() {
        let octets = with_types(alloc, *count, *last)?;
        let answer = Certificate::read(alloc, &octets).err();
        let wanted = at.map(|at| CertFault::Refused(CertRule::ExtensionRepeated, at));
        assert!(rt; answer == wanted, "{count} types, then {last}");
    }
    Ok(())
}

/// For every refused allocation: the answer is that of ample memory, or that memory ran out.
#[test]
fn wants_memory_or_answers(rt: HostRuntime) -> Result<(), Fail> {
    let alloc = rt.alloc();
    let Ok(octets) = with_extensions(alloc, EXTENSIONS) else {
        return Ok(());
    };
    match Certificate::read(alloc, &octets) {
        Ok(read) => assert!(rt; read.extensions.unrecognised.len() == 2),
        Err(fault) => assert!(rt; fault == CertFault::Memory),
    }
    let Ok(octets) = with_types(alloc, 17, 18) else {
        return Ok(());
    };
    match Certificate::read(alloc, &octets) {
        Ok(read) => assert!(rt; read.extensions.unrecognised.is_empty()),
        Err(fault) => assert!(rt; fault == CertFault::Memory),
    }
    Ok(())
}
