//! Which octets are the encoding of one value, and the first fault of all others.

use der::{
    Fault, Header, Rule, check, encoding_laws, is_constructed_form, is_contents,
    is_refused_identifier,
};
use std::alloc::{AllocError, Global};
use std::test::Fail;

fn refused(octets: &[u8], rule: Rule, at: usize) -> bool {
    check(octets) == Err(Fault::Refused(rule, at))
}

/// SEQUENCEs in one another, the innermost empty.
fn nest(alloc: Global, depth: u8) -> Result<Vec<u8>, AllocError> {
    let mut octets = Vec::new(alloc);
    for inside in (0..depth).rev() {
        octets.push(0x30)?;
        octets.push(inside.wrapping_mul(2))?;
    }
    Ok(octets)
}

const ACCEPTED: &[&[u8]] = &[
    &[0x30, 0x00],
    &[0x30, 0x06, 0x02, 0x01, 0x05, 0x04, 0x01, 0x00],
    &[0x02, 0x02, 0x00, 0x80],
    &[0x02, 0x02, 0xFF, 0x7F],
    &[0x30, 0x08, 0x01, 0x01, 0xFF, 0x05, 0x00, 0x02, 0x01, 0x80],
    &[0x01, 0x01, 0x00],
    &[0x0A, 0x01, 0x00],
    &[0x03, 0x01, 0x00],
    &[0x03, 0x02, 0x07, 0x80],
    &[0x06, 0x03, 0x2A, 0x86, 0x48],
    &[0x0C, 0x00],
    &[0xA0, 0x03, 0x80, 0x01, 0xFF],
];

const REFUSED: &[(&[u8], Rule, usize)] = &[
    (&[0x30, 0x80, 0x00, 0x00], Rule::LengthForm, 0),
    (&[0x02, 0x81, 0x7F], Rule::LengthForm, 0),
    (&[0x30, 0x84, 0xFF, 0xFF, 0xFF, 0xFF], Rule::TooLong, 0),
    (&[0x1F], Rule::TagForm, 0),
    (&[0x22, 0x03, 0x02, 0x01, 0x01], Rule::TagForm, 0),
    (&[0x00, 0x00], Rule::TagForm, 0),
    (&[0x10, 0x00], Rule::TagForm, 0),
    (&[0x11, 0x00], Rule::TagForm, 0),
    (&[0xBF, 0x20, 0x00], Rule::TagForm, 0),
    (&[], Rule::Truncated, 0),
    (&[0x30], Rule::Truncated, 0),
    (&[0x30, 0x81], Rule::Truncated, 0),
    (&[0x02, 0x03, 0x01], Rule::Truncated, 0),
    (&[0x30, 0x03, 0x02, 0x02, 0x01], Rule::Truncated, 2),
    (&[0x05, 0x00, 0x00], Rule::Trailing, 2),
    (&[0x02, 0x02, 0x00, 0x7F], Rule::Content, 0),
    (&[0x02, 0x02, 0xFF, 0x80], Rule::Content, 0),
    (&[0x02, 0x00], Rule::Content, 0),
    (&[0x01, 0x01, 0x01], Rule::Content, 0),
    (&[0x01, 0x02, 0xFF, 0xFF], Rule::Content, 0),
    (&[0x05, 0x01, 0x00], Rule::Content, 0),
    (&[0x03, 0x00], Rule::Content, 0),
    (&[0x03, 0x01, 0x01], Rule::Content, 0),
    (&[0x03, 0x02, 0x01, 0x01], Rule::Content, 0),
    (&[0x03, 0x02, 0x08, 0x00], Rule::Content, 0),
    (&[0x06, 0x00], Rule::Content, 0),
    (&[0x06, 0x01, 0x80], Rule::Content, 0),
    (&[0x06, 0x02, 0x2A, 0x86], Rule::Content, 0),
    (&[0x06, 0x03, 0x2A, 0x80, 0x01], Rule::Content, 0),
    (&[0x30, 0xFF], Rule::LengthForm, 0),
];

#[test]
fn octets_are_accepted_or_refused(rt: HostRuntime) {
    for octets in ACCEPTED.iter() {
        assert!(rt; check(octets).is_ok(), "{octets:?}");
    }
    for (octets, rule, at) in REFUSED.iter() {
        assert!(rt; refused(octets, *rule, *at), "{octets:?}");
    }
}

/// The first value at fault decides, and at one value the rule with the least number.
const FIRST_FAULTS: &[(&[u8], Rule, usize)] = &[
    (
        &[0x30, 0x06, 0x01, 0x01, 0x02, 0x02, 0x01, 0x00],
        Rule::Content,
        2,
    ),
    (&[0x30, 0x04, 0x05, 0x00, 0x1F, 0x80], Rule::TagForm, 4),
    (&[0x30, 0x02, 0x05, 0x00, 0x00], Rule::Trailing, 4),
    (&[0x30, 0x03, 0x1F, 0x00], Rule::Truncated, 0),
];

#[test]
fn the_first_fault_is_named(rt: HostRuntime) -> Result<(), Fail> {
    for (octets, rule, at) in FIRST_FAULTS.iter() {
        assert!(rt; refused(octets, *rule, *at), "{octets:?}");
    }
    assert!(rt; check(&nest(rt.alloc(), 32)?).is_ok());
    assert!(rt; refused(&nest(rt.alloc(), 33)?, Rule::TooDeep, 64));
    Ok(())
}

const FAULTS: &[(Fault, u8, &str, Option<usize>)] = &[
    (Fault::Refused(Rule::TagForm, 3), 1, "TagForm", Some(3)),
    (
        Fault::Refused(Rule::LengthForm, 0),
        2,
        "LengthForm",
        Some(0),
    ),
    (Fault::Refused(Rule::TooLong, 1), 3, "TooLong", Some(1)),
    (Fault::Refused(Rule::Truncated, 2), 4, "Truncated", Some(2)),
    (Fault::Refused(Rule::TooDeep, 64), 5, "TooDeep", Some(64)),
    (Fault::Refused(Rule::Content, 0), 6, "Content", Some(0)),
    (Fault::Refused(Rule::Trailing, 2), 7, "Trailing", Some(2)),
    (Fault::Memory, 8, "Memory", None),
];

#[test]
fn faults_have_numbers_names_and_places(rt: HostRuntime) {
    for (fault, number, name, place) in FAULTS.iter() {
        assert!(rt; fault.number() == *number, "{name}");
        assert!(rt; fault.name() == *name, "{name}");
        assert!(rt; fault.place() == *place, "{name}");
    }
}

#[test]
fn a_header_is_read(rt: HostRuntime) {
    let header = Header {
        identifier: 0x30,
        len: 4,
        contents: 256,
    };
    let mut octets = [0u8; 260];
    octets[0] = 0x30;
    octets[1] = 0x82;
    octets[2] = 0x01;
    assert_eq!(rt; Header::read(&octets), Ok(header));
    assert_eq!(rt; Header::read(&octets[..259]), Err(Rule::Truncated));
    assert!(rt; is_contents(6, &[0x2A]));
    assert!(rt; is_constructed_form(0x30));
    assert!(rt; is_refused_identifier(0x1F));
    encoding_laws();
}
