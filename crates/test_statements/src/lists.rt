//! Revocation lists that are believed, with what they say, and others.

use crate::telling::{Wrong, line};
use std::alloc::Global;
use std::test::Fail;
use vectors::revocation_list;

/// What the list of the second text says under the issuer of the first.
fn line_of_list(alloc: Global, issuer: &str, list: &str) -> Result<String, Wrong> {
    let octets = revocation_list(alloc, list)?;
    line(alloc, issuer, &octets)
}

/// The issuer's certificate, the list, and its facts.
const BELIEVED: &[(&str, &str, &str)] = &[
    ("ca(R,R)", "crl(R,5)", "all 5 1748736000 1751328000"),
    (
        "ca(R,R)",
        "crl(R,5,[05 1])",
        "all 5 1748736000 1751328000 05 1",
    ),
    (
        "ca(R,R)",
        "crl(R,5,[05 1][05 4][06 0])",
        "all 5 1748736000 1751328000 05 1 06 0",
    ),
    (
        "ca(R,R)",
        "crl(R,5,[06 0][05 1])",
        "all 5 1748736000 1751328000 05 1 06 0",
    ),
    (
        "ca(R,R)",
        "crl(R,5,[06][05 4][06 9][05 1][05])",
        "all 5 1748736000 1751328000 05 4 06 0",
    ),
    (
        "ca(R,R)",
        "crl(R,5,[8000 2][7F 3][0081 6])",
        "all 5 1748736000 1751328000 0081 6 7f 3 8000 2",
    ),
    (
        "ca(R,R)",
        "crl(R,7,[05 1]){scope user}",
        "user 7 1748736000 1751328000 05 1",
    ),
    (
        "ca(R,R)",
        "crl(R,7){scope ca}",
        "ca 7 1748736000 1751328000",
    ),
    (
        "ca(R,R)",
        "crl(R,0){number 008000000000000000000000000000000000000000}",
        "all 8000000000000000000000000000000000000000 1748736000 1751328000",
    ),
    (
        "ca(R,R)",
        "crl(R,5){this 200101000000Z}{next 200201000000Z}",
        "all 5 1577836800 1580515200",
    ),
    (
        "ca(R,R)",
        "crl(R,5){this 260101000000Z}{next 250101000000Z}",
        "all 5 1767225600 1735689600",
    ),
    (
        "ca(R,X){serial 07}{until 250102000000Z}",
        "crl(R,5)",
        "all 5 1748736000 1751328000",
    ),
    (
        "ca(R,R){key X}",
        "crl(R,5){signed X}",
        "all 5 1748736000 1751328000",
    ),
    ("ca(r,R){key R}", "crl(R,5)", "all 5 1748736000 1751328000"),
    ("ee(R,R)", "crl(R,5)", "all 5 1748736000 1751328000"),
    (
        "ca(R,R){usage 0780}",
        "crl(R,5)",
        "all 5 1748736000 1751328000",
    ),
];

/// The issuer's certificate, the list, and the number of its fault.
const REFUSED: &[(&str, &str, u8)] = &[
    ("ca(X,X)", "crl(R,5)", 53),
    ("ca(R,R)", "crl(R,5){signed X}", 54),
    ("ca(R,R){key X}", "crl(R,5)", 54),
    ("ca(R,R)", "crl(X,5)", 53),
    ("ca(R,R)", "crl(X,5){signed R}", 53),
    ("ca(X,X){key R}", "crl(R,5)", 53),
    (
        "ca(R,R)",
        "crl(R,0){number 01000000000000000000000000000000000000000000}{signed X}",
        45,
    ),
    ("ca(X,X)", "crl(R,5,[05 8])", 52),
    ("ca(X,X)", "crl(R,5,[05 7])", 51),
    ("ca(X,X)", "crl(R,5){next 250732000000Z}", 42),
];

#[test]
fn lists_are_believed(rt: HostRuntime) -> Result<(), Fail> {
    for (issuer, list, wanted) in BELIEVED.iter() {
        let is_so = match line_of_list(rt.alloc(), issuer, list) {
            Ok(line) => line.as_str() == *wanted,
            Err(_) => false,
        };
        assert!(rt; is_so, "{list} under {issuer}");
    }
    Ok(())
}

#[test]
fn lists_are_refused(rt: HostRuntime) -> Result<(), Fail> {
    for (issuer, list, wanted) in REFUSED.iter() {
        let is_so = match line_of_list(rt.alloc(), issuer, list) {
            Err(Wrong::Refused(fault)) => {
                fault.number() == *wanted && fault.place().is_some() == (*wanted < 53)
            }
            _ => false,
        };
        assert!(rt; is_so, "{list} under {issuer}");
    }
    Ok(())
}

/// Any answer but a wrong one.
#[test]
fn wants_memory_or_answers(rt: HostRuntime) -> Result<(), Fail> {
    let is_so = match line_of_list(rt.alloc(), "ca(R,R)", "crl(R,5,[06 0][05 1][05 4])") {
        Ok(line) => line.as_str() == "all 5 1748736000 1751328000 05 1 06 0",
        Err(wrong) => wrong == Wrong::Memory,
    };
    assert!(rt; is_so);
    Ok(())
}
