//! The parts of a certificate that are read alone: algorithm identifiers, validities, extensions; the numbers of rules.

use asn::{Rule, whole};
use cert::{AlgorithmIdentifier, CertFault, CertRule, Extension, Validity, layout_laws};
use names::NameRule;
use std::test::Fail;

/// Algorithm identifiers of the type 1.2.3.
const ALGORITHMS: &[(&[u8], &str)] = &[
    (b"\x30\x04\x06\x02\x2A\x03", "no parameters"),
    (b"\x30\x06\x06\x02\x2A\x03\x05\x00", "NULL"),
    (b"\x30\x08\x06\x02\x2A\x03\x30\x02\x05\x00", "a SEQUENCE"),
    (
        b"\x30\x08\x06\x02\x2A\x03\x06\x02\x2A\x04",
        "another OBJECT IDENTIFIER",
    ),
];

#[test]
fn algorithm_identifiers_are_read(rt: HostRuntime) -> Result<(), Fail> {
    for (octets, what) in ALGORITHMS.iter() {
        match AlgorithmIdentifier::read(whole(octets)?, 'x') {
            Ok(found) => {
                let is_so = found.oid.is(&[0x2A, 0x03]) && found.value.whole == *octets;
                assert!(rt; is_so, "{what}");
            }
            Err(_) => return Err(Fail::from(*what)),
        }
    }
    layout_laws();
    Ok(())
}

const REFUSED_ALGORITHMS: &[(&[u8], usize, &str)] = &[
    (b"\x31\x04\x06\x02\x2A\x03", 0, "a SET"),
    (b"\x06\x02\x2A\x03", 0, "an OBJECT IDENTIFIER alone"),
    (b"\x30\x00", 2, "nothing inside"),
    (b"\x30\x03\x02\x01\x05", 2, "an INTEGER first"),
    (b"\x30\x06\x05\x00\x06\x02\x2A\x03", 2, "parameters first"),
    (
        b"\x30\x08\x06\x02\x2A\x03\x05\x00\x05\x00",
        8,
        "parameters twice",
    ),
];

#[test]
fn other_algorithm_identifiers_are_refused(rt: HostRuntime) -> Result<(), Fail> {
    for (octets, at, what) in REFUSED_ALGORITHMS.iter() {
        let answer = AlgorithmIdentifier::read(whole(octets)?, CertRule::Layout);
        assert!(rt; answer.err() == Some((CertRule::Layout, *at)), "{what}");
    }
    let octets = b"\x30\x0A\x30\x08\x06\x02\x2A\x03\x05\x00\x05\x00";
    let mut members = whole(octets)?.inside().ok_or("constructed")?;
    let value = members.next().ok_or("a member")?;
    let answer = AlgorithmIdentifier::read(value, CertRule::Layout);
    assert!(rt; answer.err() == Some((CertRule::Layout, 10)), "further in");
    Ok(())
}

/// The seconds are those that `date -u` gives.
const VALIDITIES: &[(&[u8], i64, i64)] = &[
    (
        b"\x30\x1E\x17\x0D250101000000Z\x17\x0D260101000000Z",
        1_735_689_600,
        1_767_225_600,
    ),
    (
        b"\x30\x22\x18\x0F20250101000000Z\x18\x0F20260101000000Z",
        1_735_689_600,
        1_767_225_600,
    ),
    (
        b"\x30\x20\x17\x0D491231235959Z\x18\x0F20500101000000Z",
        2_524_607_999,
        2_524_608_000,
    ),
    (
        b"\x30\x20\x18\x0F19491231235959Z\x17\x0D500101000000Z",
        -631_152_001,
        -631_152_000,
    ),
    (
        b"\x30\x1E\x17\x0D260101000000Z\x17\x0D250101000000Z",
        1_767_225_600,
        1_735_689_600,
    ),
];

#[test]
fn validities_are_read(rt: HostRuntime) -> Result<(), Fail> {
    for (row, (octets, not_before, not_after)) in VALIDITIES.iter().enumerate() {
        let expected = Validity {
            not_before: *not_before,
            not_after: *not_after,
        };
        let answer = Validity::read(whole(octets)?);
        assert!(rt; answer == Ok(expected), "at row {row}");
    }
    Ok(())
}

const REFUSED_VALIDITIES: &[(&[u8], CertRule, usize, &str)] = &[
    (
        b"\x31\x1E\x17\x0D250101000000Z\x17\x0D260101000000Z",
        CertRule::Layout,
        0,
        "a SET",
    ),
    (
        b"\x17\x0D250101000000Z",
        CertRule::Layout,
        0,
        "a time alone",
    ),
    (b"\x30\x00", CertRule::Layout, 2, "no time"),
    (
        b"\x30\x0F\x17\x0D250101000000Z",
        CertRule::Layout,
        17,
        "one time",
    ),
    (
        b"\x30\x12\x02\x01\x05\x17\x0D250101000000Z",
        CertRule::Layout,
        2,
        "an INTEGER first",
    ),
    (
        b"\x30\x12\x17\x0D250101000000Z\x02\x01\x05",
        CertRule::Layout,
        17,
        "an INTEGER second",
    ),
    (
        b"\x30\x20\x17\x0D250101000000Z\x17\x0D260101000000Z\x05\x00",
        CertRule::Layout,
        32,
        "a value behind the times",
    ),
    (
        b"\x30\x1E\x17\x0D251301000000Z\x17\x0D260101000000Z",
        CertRule::Time,
        2,
        "month 13 first",
    ),
    (
        b"\x30\x1E\x17\x0D250101000000Z\x17\x0D260230000000Z",
        CertRule::Time,
        17,
        "30 February second",
    ),
    (
        b"\x30\x0F\x17\x0D251301000000Z",
        CertRule::Time,
        2,
        "month 13 alone",
    ),
    (
        b"\x30\x1E\x18\x0D250101000000Z\x17\x0D260101000000Z",
        CertRule::Time,
        2,
        "a UTCTime under the tag of GeneralizedTime",
    ),
    (
        b"\x30\x20\x17\x0D250101000000Z\x17\x0F20260101000000Z",
        CertRule::Time,
        17,
        "a GeneralizedTime under the tag of UTCTime",
    ),
];

#[test]
fn other_validities_are_refused(rt: HostRuntime) -> Result<(), Fail> {
    for (octets, rule, at, what) in REFUSED_VALIDITIES.iter() {
        let answer = Validity::read(whole(octets)?);
        assert!(rt; answer == Err((*rule, *at)), "{what}");
    }
    Ok(())
}

/// Extensions of the type 2.5.29.19: whether they are critical, the contents of the OCTET STRING, and where that stands.
const EXTENSIONS: &[(&[u8], bool, &[u8], usize, &str)] = &[
    (
        b"\x30\x09\x06\x03\x55\x1D\x13\x04\x02\x30\x00",
        false,
        &[0x30, 0x00],
        7,
        "not critical",
    ),
    (
        b"\x30\x0C\x06\x03\x55\x1D\x13\x01\x01\xFF\x04\x02\x30\x00",
        true,
        &[0x30, 0x00],
        10,
        "critical",
    ),
    (
        b"\x30\x07\x06\x03\x55\x1D\x13\x04\x00",
        false,
        &[],
        7,
        "an empty OCTET STRING",
    ),
];

/// Whether the extension says this.
fn says(found: &Extension<'_>, octets: &[u8], critical: bool, contents: &[u8], at: usize) -> bool {
    found.whole.whole == octets
        && found.oid.is(&[0x55, 0x1D, 0x13])
        && found.critical == critical
        && found.value.body == contents
        && found.value.at == at
}

#[test]
fn extensions_are_read(rt: HostRuntime) -> Result<(), Fail> {
    for (octets, critical, contents, at, what) in EXTENSIONS.iter() {
        match Extension::read(whole(octets)?, 'x') {
            Ok(found) => assert!(rt; says(&found, octets, *critical, contents, *at), "{what}"),
            Err(_) => return Err(Fail::from(*what)),
        }
    }
    Ok(())
}

const REFUSED_EXTENSIONS: &[(&[u8], usize, &str)] = &[
    (b"\x31\x07\x06\x03\x55\x1D\x13\x04\x00", 0, "a SET"),
    (b"\x30\x00", 2, "nothing inside"),
    (b"\x30\x04\x04\x02\x30\x00", 2, "no OBJECT IDENTIFIER"),
    (
        b"\x30\x05\x06\x03\x55\x1D\x13",
        7,
        "the OBJECT IDENTIFIER alone",
    ),
    (
        b"\x30\x08\x06\x03\x55\x1D\x13\x01\x01\xFF",
        10,
        "no OCTET STRING behind TRUE",
    ),
    (
        b"\x30\x0C\x06\x03\x55\x1D\x13\x01\x01\x00\x04\x02\x30\x00",
        7,
        "FALSE",
    ),
    (
        b"\x30\x0F\x06\x03\x55\x1D\x13\x01\x01\xFF\x01\x01\xFF\x04\x02\x30\x00",
        10,
        "TRUE twice",
    ),
    (
        b"\x30\x07\x06\x03\x55\x1D\x13\x05\x00",
        7,
        "NULL for the OCTET STRING",
    ),
    (
        b"\x30\x09\x06\x03\x55\x1D\x13\x04\x00\x05\x00",
        9,
        "a value behind the OCTET STRING",
    ),
];

#[test]
fn other_extensions_are_refused(rt: HostRuntime) -> Result<(), Fail> {
    for (octets, at, what) in REFUSED_EXTENSIONS.iter() {
        let answer = Extension::read(whole(octets)?, CertRule::Layout);
        assert!(rt; answer.err() == Some((CertRule::Layout, *at)), "{what}");
    }
    Ok(())
}

/// Rules, their numbers and names, and what they say.
const RULES: &[(CertRule, u8, &str, &str)] = &[
    (
        CertRule::Der(Rule::Truncated),
        21,
        "Der",
        "fault 21: not DER: fault 4: value cut short",
    ),
    (
        CertRule::Layout,
        22,
        "Layout",
        "fault 22: value that the layout does not have there",
    ),
    (
        CertRule::Version,
        23,
        "Version",
        "fault 23: version that is not served, or a component that it does not have",
    ),
    (
        CertRule::AlgorithmsDiffer,
        24,
        "AlgorithmsDiffer",
        "fault 24: signature algorithms that differ",
    ),
    (
        CertRule::Serial,
        25,
        "Serial",
        "fault 25: serial number of no octets or of more than 32",
    ),
    (
        CertRule::Time,
        26,
        "Time",
        "fault 26: time that does not exist",
    ),
    (
        CertRule::EmptyIssuer,
        27,
        "EmptyIssuer",
        "fault 27: issuer without a name",
    ),
    (
        CertRule::ExtensionRepeated,
        28,
        "ExtensionRepeated",
        "fault 28: extension repeated",
    ),
    (
        CertRule::ExtensionValue,
        29,
        "ExtensionValue",
        "fault 29: value of an extension that has not the layout of its type",
    ),
    (
        CertRule::SubtreeBounds,
        30,
        "SubtreeBounds",
        "fault 30: subtree with a minimum or a maximum",
    ),
    (
        CertRule::SignatureBits,
        31,
        "SignatureBits",
        "fault 31: signature with unused bits",
    ),
    (
        CertRule::Limit,
        32,
        "Limit",
        "fault 32: more names or subtrees than are served",
    ),
];

#[test]
fn rules_have_numbers_and_names(rt: HostRuntime) -> Result<(), Fail> {
    for (rule, number, name, sentence) in RULES.iter() {
        let is_so = rule.number() == *number && rule.name() == *name;
        assert!(rt; is_so, "{name}");
        let printed = format!(in rt.alloc(); "{rule}")?;
        assert!(rt; printed.as_str() == *sentence, "{name}: {printed}");
    }
    Ok(())
}

#[test]
fn faults_are_printed_with_their_place(rt: HostRuntime) -> Result<(), Fail> {
    let refused = CertFault::Refused(CertRule::Name(NameRule::Text), 90);
    let printed = format!(in rt.alloc(); "{refused}")?;
    assert!(rt;
        printed.as_str() == "fault 14: not a string of its type, at offset 90",
        "{printed}"
    );
    let memory = CertFault::Memory;
    let printed = format!(in rt.alloc(); "{memory}")?;
    assert!(rt; printed.as_str() == "fault 33: no memory", "{printed}");
    Ok(())
}
