//! Octets that are no certificate: the first fault, with its place.

use crate::building::{
    ALGORITHM, ISSUER, KEY, OUTER, PLAIN, REST, SERIAL, SIGNATURE, SUBJECT, TAIL, VALIDITY,
    VERSION, certificate_of, plain_but,
};
use crate::holds;
use asn::Rule;
use cert::{CertFault, CertRule, Certificate};
use names::NameRule;
use std::alloc::Global;
use std::test::Fail;

/// A component that the plain certificate has another of: in words, which one it is, its octets, the rule that is broken, and where.
const REFUSED: &[(&str, usize, &[u8], CertRule, usize)] = &[
    (
        "a version that is v1",
        VERSION,
        b"\xA0\x03\x02\x01\x00",
        CertRule::Version,
        6,
    ),
    (
        "a version that is v4",
        VERSION,
        b"\xA0\x03\x02\x01\x03",
        CertRule::Version,
        6,
    ),
    (
        "a negative version",
        VERSION,
        b"\xA0\x03\x02\x01\xFF",
        CertRule::Version,
        6,
    ),
    (
        "a version of two octets",
        VERSION,
        b"\xA0\x04\x02\x02\x01\x00",
        CertRule::Version,
        6,
    ),
    (
        "a version that is no INTEGER",
        VERSION,
        b"\xA0\x02\x05\x00",
        CertRule::Layout,
        6,
    ),
    (
        "nothing in the tag of the version",
        VERSION,
        b"\xA0\x00",
        CertRule::Layout,
        6,
    ),
    (
        "a value behind the version",
        VERSION,
        b"\xA0\x05\x02\x01\x02\x05\x00",
        CertRule::Layout,
        9,
    ),
    (
        "a version that is refused, and a value behind it",
        VERSION,
        b"\xA0\x05\x02\x01\x00\x05\x00",
        CertRule::Version,
        6,
    ),
    (
        "a NULL for the serial number",
        SERIAL,
        b"\x05\x00",
        CertRule::Layout,
        9,
    ),
    (
        "a serial number of 33 octets",
        SERIAL,
        b"\x02\x21\x01\x00\x00\x00\x00\x00\x00\x00\x00\x00\x00\x00\x00\x00\x00\x00\x00\x00\x00\x00\x00\x00\x00\x00\x00\x00\x00\x00\x00\x00\x00\x00\x00",
        CertRule::Serial,
        10,
    ),
    (
        "a NULL for the algorithm",
        ALGORITHM,
        b"\x05\x00",
        CertRule::Layout,
        12,
    ),
    (
        "an algorithm of no value",
        ALGORITHM,
        b"\x30\x00",
        CertRule::Layout,
        14,
    ),
    (
        "an algorithm of three values",
        ALGORITHM,
        b"\x30\x08\x06\x02\x2A\x03\x05\x00\x05\x00",
        CertRule::Layout,
        20,
    ),
    (
        "an algorithm whose type is a NULL",
        ALGORITHM,
        b"\x30\x02\x05\x00",
        CertRule::Layout,
        14,
    ),
    (
        "a NULL for the issuer",
        ISSUER,
        b"\x05\x00",
        CertRule::Layout,
        18,
    ),
    (
        "an empty issuer",
        ISSUER,
        b"\x30\x00",
        CertRule::EmptyIssuer,
        18,
    ),
    (
        "an RDN that is a SEQUENCE",
        ISSUER,
        b"\x30\x02\x30\x00",
        CertRule::Name(NameRule::NameLayout),
        20,
    ),
    (
        "an RDN with two common names",
        ISSUER,
        b"\x30\x14\x31\x12\x30\x07\x06\x03\x55\x04\x03\x0C\x00\x30\x07\x06\x03\x55\x04\x03\x13\x00",
        CertRule::Name(NameRule::RdnRepeat),
        31,
    ),
    (
        "an RDN out of order",
        ISSUER,
        b"\x30\x14\x31\x12\x30\x07\x06\x03\x55\x04\x06\x13\x00\x30\x07\x06\x03\x55\x04\x03\x13\x00",
        CertRule::Name(NameRule::SetOrder),
        31,
    ),
    (
        "a PrintableString with an octet above 127",
        ISSUER,
        b"\x30\x0C\x31\x0A\x30\x08\x06\x03\x55\x04\x03\x13\x01\x80",
        CertRule::Name(NameRule::Text),
        29,
    ),
    (
        "a NULL for the validity",
        VALIDITY,
        b"\x05\x00",
        CertRule::Layout,
        32,
    ),
    (
        "a validity without a time",
        VALIDITY,
        b"\x30\x00",
        CertRule::Layout,
        34,
    ),
    (
        "a month 13",
        VALIDITY,
        b"\x30\x1E\x17\x0D\x32\x36\x30\x31\x30\x31\x30\x30\x30\x30\x30\x30\x5A\x17\x0D\x32\x35\x31\x33\x30\x31\x30\x30\x30\x30\x30\x30\x5A",
        CertRule::Time,
        49,
    ),
    (
        "a NULL for the subject",
        SUBJECT,
        b"\x05\x00",
        CertRule::Layout,
        64,
    ),
    (
        "a subject with an RDN that is a SEQUENCE",
        SUBJECT,
        b"\x30\x02\x30\x00",
        CertRule::Name(NameRule::NameLayout),
        66,
    ),
    ("a NULL for the key", KEY, b"\x05\x00", CertRule::Layout, 78),
    (
        "a key without an algorithm",
        KEY,
        b"\x30\x06\x03\x02\x00\x4B\x05\x00",
        CertRule::Layout,
        80,
    ),
    (
        "a key without a BIT STRING",
        KEY,
        b"\x30\x06\x30\x04\x06\x02\x2A\x03",
        CertRule::Layout,
        86,
    ),
    (
        "a key that is an OCTET STRING",
        KEY,
        b"\x30\x09\x30\x04\x06\x02\x2A\x03\x04\x01\x4B",
        CertRule::Layout,
        86,
    ),
    (
        "a value behind the key",
        KEY,
        b"\x30\x0C\x30\x04\x06\x02\x2A\x03\x03\x02\x00\x4B\x05\x00",
        CertRule::Layout,
        90,
    ),
    (
        "a key whose algorithm is a NULL",
        KEY,
        b"\x30\x06\x05\x00\x03\x02\x00\x4B",
        CertRule::Layout,
        80,
    ),
    (
        "unique identifiers out of order",
        TAIL,
        b"\x82\x01\x00\x81\x01\x00",
        CertRule::Layout,
        93,
    ),
    (
        "a NULL behind the key",
        TAIL,
        b"\x05\x00",
        CertRule::Layout,
        90,
    ),
    (
        "nothing in the tag of the extensions",
        TAIL,
        b"\xA3\x00",
        CertRule::Layout,
        92,
    ),
    (
        "a SET of extensions",
        TAIL,
        b"\xA3\x02\x31\x00",
        CertRule::Layout,
        92,
    ),
    (
        "no extension",
        TAIL,
        b"\xA3\x02\x30\x00",
        CertRule::Layout,
        94,
    ),
    (
        "a value behind the extensions",
        TAIL,
        b"\xA3\x0F\x30\x0B\x30\x09\x06\x03\x55\x1D\x23\x04\x02\x05\x00\x05\x00",
        CertRule::Layout,
        105,
    ),
    (
        "a value behind the tag of the extensions",
        TAIL,
        b"\xA3\x0B\x30\x09\x30\x07\x06\x03\x55\x1D\x23\x04\x00\x05\x00",
        CertRule::Layout,
        103,
    ),
    (
        "an extension that is a NULL",
        TAIL,
        b"\xA3\x04\x30\x02\x05\x00",
        CertRule::Layout,
        94,
    ),
    (
        "an extension that is not critical, and says so",
        TAIL,
        b"\xA3\x0E\x30\x0C\x30\x0A\x06\x03\x55\x1D\x23\x01\x01\x00\x04\x00",
        CertRule::Layout,
        101,
    ),
    (
        "an extension without a value",
        TAIL,
        b"\xA3\x09\x30\x07\x30\x05\x06\x03\x55\x1D\x23",
        CertRule::Layout,
        101,
    ),
    (
        "a repeated type",
        TAIL,
        b"\xA3\x14\x30\x12\x30\x07\x06\x03\x55\x1D\x23\x04\x00\x30\x07\x06\x03\x55\x1D\x23\x04\x00",
        CertRule::ExtensionRepeated,
        103,
    ),
    (
        "a repeated type with a value that is refused",
        TAIL,
        b"\xA3\x18\x30\x16\x30\x09\x06\x03\x55\x1D\x13\x04\x02\x30\x00\x30\x09\x06\x03\x55\x1D\x13\x04\x02\x05\x00",
        CertRule::ExtensionRepeated,
        105,
    ),
    (
        "an extension that is refused before one of a repeated type",
        TAIL,
        b"\xA3\x18\x30\x16\x30\x09\x06\x03\x55\x1D\x13\x04\x02\x05\x00\x30\x09\x06\x03\x55\x1D\x13\x04\x02\x30\x00",
        CertRule::ExtensionValue,
        103,
    ),
    (
        "basicConstraints that are not DER",
        TAIL,
        b"\xA3\x0D\x30\x0B\x30\x09\x06\x03\x55\x1D\x13\x04\x02\x30\x01",
        CertRule::Der(Rule::Truncated),
        103,
    ),
    (
        "basicConstraints with an explicit FALSE",
        TAIL,
        b"\xA3\x10\x30\x0E\x30\x0C\x06\x03\x55\x1D\x13\x04\x05\x30\x03\x01\x01\x00",
        CertRule::ExtensionValue,
        105,
    ),
    (
        "keyUsage that is a NULL",
        TAIL,
        b"\xA3\x0D\x30\x0B\x30\x09\x06\x03\x55\x1D\x0F\x04\x02\x05\x00",
        CertRule::ExtensionValue,
        103,
    ),
    (
        "keyUsage without a count of unused bits",
        TAIL,
        b"\xA3\x0D\x30\x0B\x30\x09\x06\x03\x55\x1D\x0F\x04\x02\x03\x00",
        CertRule::Der(Rule::Content),
        103,
    ),
    (
        "subjectAltName with an empty label",
        TAIL,
        b"\xA3\x13\x30\x11\x30\x0F\x06\x03\x55\x1D\x11\x04\x08\x30\x06\x82\x04\x61\x2E\x2E\x62",
        CertRule::Name(NameRule::DnsForm),
        105,
    ),
    (
        "subjectAltName with an address of 5 octets",
        TAIL,
        b"\xA3\x14\x30\x12\x30\x10\x06\x03\x55\x1D\x11\x04\x09\x30\x07\x87\x05\x0A\x00\x00\x00\x01",
        CertRule::Name(NameRule::IpForm),
        105,
    ),
    (
        "subjectAltName without a name",
        TAIL,
        b"\xA3\x0D\x30\x0B\x30\x09\x06\x03\x55\x1D\x11\x04\x02\x30\x00",
        CertRule::ExtensionValue,
        105,
    ),
    (
        "nameConstraints with a minimum",
        TAIL,
        b"\xA3\x16\x30\x14\x30\x12\x06\x03\x55\x1D\x1E\x04\x0B\x30\x09\xA0\x07\x30\x05\x82\x00\x80\x01\x00",
        CertRule::SubtreeBounds,
        111,
    ),
    (
        "nameConstraints with a mask of 255.0.255.0",
        TAIL,
        b"\xA3\x1B\x30\x19\x30\x17\x06\x03\x55\x1D\x1E\x04\x10\x30\x0E\xA0\x0C\x30\x0A\x87\x08\x0A\x00\x00\x00\xFF\x00\xFF\x00",
        CertRule::Name(NameRule::MaskForm),
        109,
    ),
    (
        "extKeyUsage without a purpose",
        TAIL,
        b"\xA3\x0D\x30\x0B\x30\x09\x06\x03\x55\x1D\x25\x04\x02\x30\x00",
        CertRule::ExtensionValue,
        105,
    ),
    (
        "a NULL for the outer algorithm",
        OUTER,
        b"\x05\x00",
        CertRule::Layout,
        90,
    ),
    (
        "an outer algorithm with parameters",
        OUTER,
        b"\x30\x06\x06\x02\x2A\x03\x05\x00",
        CertRule::AlgorithmsDiffer,
        90,
    ),
    (
        "an outer algorithm of no value",
        OUTER,
        b"\x30\x00",
        CertRule::AlgorithmsDiffer,
        90,
    ),
    ("no outer algorithm", OUTER, b"", CertRule::Layout, 90),
    (
        "a signature that is an OCTET STRING",
        SIGNATURE,
        b"\x04\x01\x00",
        CertRule::Layout,
        96,
    ),
    ("no signature", SIGNATURE, b"", CertRule::Layout, 96),
    (
        "a signature with an unused bit",
        SIGNATURE,
        b"\x03\x02\x01\xEE",
        CertRule::SignatureBits,
        96,
    ),
    (
        "a signature without a count of unused bits",
        SIGNATURE,
        b"\x03\x00",
        CertRule::Der(Rule::Content),
        96,
    ),
    (
        "a value behind the signature",
        REST,
        b"\x05\x00",
        CertRule::Layout,
        100,
    ),
];

/// Whether the octets are refused for the rule at this offset.
fn is_refused(alloc: Global, octets: &[u8], rule: CertRule, at: usize) -> bool {
    Certificate::read(alloc, octets).err() == Some(CertFault::Refused(rule, at))
}

#[test]
fn other_components_are_refused(rt: HostRuntime) -> Result<(), Fail> {
    let alloc = rt.alloc();
    for (what, component, octets, rule, at) in REFUSED.iter() {
        let certificate = plain_but(alloc, *component, octets)?;
        assert!(rt; is_refused(alloc, &certificate, *rule, *at), "{what}");
    }
    Ok(())
}

/// Texts of another form, without the checks of components.
const OTHER_TEXTS: &[(&[u8], CertRule, usize, &str)] = &[
    (&[], CertRule::Der(Rule::Truncated), 0, "no octets"),
    (b"\x05\x00", CertRule::Layout, 0, "a NULL"),
    (b"\x31\x00", CertRule::Layout, 0, "a SET"),
    (b"\x30\x00", CertRule::Layout, 2, "nothing inside"),
    (
        b"\x30\x02\x31\x00",
        CertRule::Layout,
        2,
        "a signed part that is a SET",
    ),
    (
        b"\x30\x02\x30\x00",
        CertRule::Layout,
        4,
        "nothing in the signed part",
    ),
];

#[test]
fn other_texts_are_refused(rt: HostRuntime) -> Result<(), Fail> {
    let alloc = rt.alloc();
    for (octets, rule, at, what) in OTHER_TEXTS.iter() {
        assert!(rt; is_refused(alloc, octets, *rule, *at), "{what}");
    }
    let mut octets = certificate_of(alloc, &PLAIN)?;
    octets.push(0)?;
    let trailing = CertRule::Der(Rule::Trailing);
    holds(
        &rt,
        is_refused(alloc, &octets, trailing, 100),
        "an octet behind",
    );
    octets.truncate(99);
    let truncated = CertRule::Der(Rule::Truncated);
    holds(
        &rt,
        is_refused(alloc, &octets, truncated, 0),
        "the last octet missing",
    );
    Ok(())
}

/// Components that a version does not have: unique identifiers in v1, extensions in v1 and v2.
const LATER: &[(&[u8], &[u8], usize, &str)] = &[
    (b"", b"\x81\x01\x00", 85, "issuerUniqueID in v1"),
    (b"", b"\x82\x01\x00", 85, "subjectUniqueID in v1"),
    (b"", b"\xA3\x02\x05\x00", 85, "extensions in v1"),
    (
        b"\xA0\x03\x02\x01\x01",
        b"\xA3\x02\x05\x00",
        90,
        "extensions in v2",
    ),
];

#[test]
fn components_of_later_versions_are_refused(rt: HostRuntime) -> Result<(), Fail> {
    let alloc = rt.alloc();
    for (version, tail, at, what) in LATER.iter() {
        let mut components = PLAIN;
        components[VERSION] = version;
        components[TAIL] = tail;
        let certificate = certificate_of(alloc, &components)?;
        assert!(rt;
            is_refused(alloc, &certificate, CertRule::Version, *at),
            "{what}"
        );
    }
    Ok(())
}
