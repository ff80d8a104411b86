//! Responses that are believed, with what they say, and others.

use crate::telling::{Wrong, line};
use std::alloc::Global;
use std::test::Fail;
use vectors_ocsp::ocsp_response;

/// What the response of the second text, with these certificates, says under the issuer of the first.
fn line_of_response(
    alloc: Global,
    issuer: &str,
    response: &str,
    certificates: &[&str],
) -> Result<String, Wrong> {
    let octets = ocsp_response(alloc, response, certificates)?;
    line(alloc, issuer, &octets)
}

/// The issuer's certificate, the response, the certificates that come with it, and its facts: of each single response the serial number,
/// the status, thisUpdate, producedAt, and from when and until when it counts.
const BELIEVED: &[(&str, &str, &[&str], &str)] = &[
    (
        "ca(R,R)",
        "ocsp(R,05 good)",
        &[],
        "05 good 1748736000 1748736000 1748736000 1751328000;",
    ),
    (
        "ca(R,R)",
        "ocsp(R,05 good){bykey R}",
        &[],
        "05 good 1748736000 1748736000 1748736000 1751328000;",
    ),
    (
        "ca(R,R)",
        "ocsp(R,05 revoked 1)",
        &[],
        "05 revoked 1 1748736000 1748736000 1748736000 1751328000;",
    ),
    (
        "ca(R,R)",
        "ocsp(R,05 revoked)",
        &[],
        "05 revoked 0 1748736000 1748736000 1748736000 1751328000;",
    ),
    (
        "ca(R,R)",
        "ocsp(R,8005 unknown)",
        &[],
        "8005 unknown 1748736000 1748736000 1748736000 1751328000;",
    ),
    (
        "ca(R,R)",
        "ocsp(R,05 good,05 revoked 1,06 unknown)",
        &[],
        "05 good 1748736000 1748736000 1748736000 1751328000;05 revoked 1 1748736000 1748736000 1748736000 1751328000;06 unknown 1748736000 1748736000 1748736000 1751328000;",
    ),
    (
        "ca(R,R)",
        "ocsp(R,05 good){open}",
        &[],
        "05 good 1748736000 1748736000 1748736000 1748822400;",
    ),
    (
        "ca(R,R)",
        "ocsp(R,05 good){from 20250615000000Z}{open}",
        &[],
        "05 good 1749945600 1749945600 1749945600 1750032000;",
    ),
    (
        "ca(R,R)",
        "ocsp(R,05 good){produced 20250602000000Z}",
        &[],
        "05 good 1748736000 1748822400 1748736000 1751328000;",
    ),
    (
        "ca(R,R)",
        "ocsp(R,05 good){from 20200101000000Z}{until 20200201000000Z}",
        &[],
        "05 good 1577836800 1577836800 1577836800 1580515200;",
    ),
    (
        "ca(R,R)",
        "ocsp(R,05 good){by D}{signed D}",
        &["ee(D,R){purpose 1.3.6.1.5.5.7.3.9}{nocheck}"],
        "05 good 1748736000 1748736000 1748736000 1751328000;",
    ),
    (
        "ca(R,R)",
        "ocsp(R,05 good){bykey D}{signed D}",
        &["ee(D,R){purpose 1.3.6.1.5.5.7.3.9}{nocheck}"],
        "05 good 1748736000 1748736000 1748736000 1751328000;",
    ),
    (
        "ca(R,R)",
        "ocsp(R,05 good){by D}{signed D}",
        &["ee(D,R){until 250610000000Z}{purpose 1.3.6.1.5.5.7.3.9}{nocheck}"],
        "05 good 1748736000 1748736000 1748736000 1749513600;",
    ),
    (
        "ca(R,R)",
        "ocsp(R,05 good){by D}{signed D}",
        &["ee(D,R){from 250605000000Z}{purpose 1.3.6.1.5.5.7.3.9}{nocheck}"],
        "05 good 1748736000 1748736000 1749081600 1751328000;",
    ),
    (
        "ca(R,R)",
        "ocsp(R,05 good){by D}{signed D}{open}",
        &["ee(D,R){until 250610000000Z}{purpose 1.3.6.1.5.5.7.3.9}{nocheck}"],
        "05 good 1748736000 1748736000 1748736000 1748822400;",
    ),
    (
        "ca(R,R)",
        "ocsp(R,05 good){by D}{signed D}",
        &[
            "ee(D,R){nocheck}",
            "ee(D,R){purpose 1.3.6.1.5.5.7.3.9}{nocheck}",
        ],
        "05 good 1748736000 1748736000 1748736000 1751328000;",
    ),
    (
        "ca(R,R)",
        "ocsp(R,05 good){by D}{signed D}",
        &[
            "ee(D,R){until 250610000000Z}{purpose 1.3.6.1.5.5.7.3.9}",
            "ee(D,R){purpose 1.3.6.1.5.5.7.3.9}{nocheck}",
        ],
        "05 good 1748736000 1748736000 1748736000 1751328000;",
    ),
    (
        "ca(R,R)",
        "ocsp(R,05 good){by D}{signed D}",
        &[
            "ee(D,R){until 259999000000Z}{purpose 1.3.6.1.5.5.7.3.9}{nocheck}",
            "ee(D,R){until 250620000000Z}{purpose 1.3.6.1.5.5.7.3.9}{nocheck}",
        ],
        "05 good 1748736000 1748736000 1748736000 1750377600;",
    ),
    (
        "ca(R,R)",
        "ocsp(R,05 good){by D}{signed D}",
        &[
            "ee(D,R){until 250610000000Z}{purpose 1.3.6.1.5.5.7.3.9}{nocheck}",
            "ee(D,R){until 250620000000Z}{purpose 1.3.6.1.5.5.7.3.9}{nocheck}",
        ],
        "05 good 1748736000 1748736000 1748736000 1749513600;",
    ),
    (
        "ca(R,R)",
        "ocsp(R,05 good){by D}{signed D}",
        &[
            "ee(D,R){until 250620000000Z}{purpose 1.3.6.1.5.5.7.3.9}{nocheck}",
            "ee(D,R){until 250610000000Z}{purpose 1.3.6.1.5.5.7.3.9}{nocheck}",
        ],
        "05 good 1748736000 1748736000 1748736000 1750377600;",
    ),
    (
        "ca(R,R)",
        "ocsp(R,05 good)",
        &["ee(R,R){until 250610000000Z}{purpose 1.3.6.1.5.5.7.3.9}{nocheck}"],
        "05 good 1748736000 1748736000 1748736000 1751328000;",
    ),
    (
        "ca(R,R)",
        "ocsp(R,05 good){signed D}",
        &["ee(R,R){key D}{until 250610000000Z}{purpose 1.3.6.1.5.5.7.3.9}{nocheck}"],
        "05 good 1748736000 1748736000 1748736000 1749513600;",
    ),
    (
        "ca(R,R)",
        "ocsp(R,05 good){by D}{signed D}",
        &["ee(D,R){purpose 1.2.3}{purpose 1.3.6.1.5.5.7.3.9}{nocheck}"],
        "05 good 1748736000 1748736000 1748736000 1751328000;",
    ),
    (
        "ca(R,R)",
        "ocsp(R,05 good){by D}{signed D}",
        &["ca(D,R){version 3}{usage 0780}{purpose 1.3.6.1.5.5.7.3.9}{nocheck}"],
        "05 good 1748736000 1748736000 1748736000 1751328000;",
    ),
    (
        "ca(R,R){key abc}{signed abc}",
        "ocsp(R,05 good){key abc}{signed abc}",
        &[],
        "05 good 1748736000 1748736000 1748736000 1751328000;",
    ),
];

/// The issuer's certificate, the response, the certificates that come with it, and the number of the fault.
const REFUSED: &[(&str, &str, &[&str], u8)] = &[
    ("ca(R,R)", "ocsp(R,05 good){by D}{signed D}", &[], 57),
    (
        "ca(R,R)",
        "ocsp(R,05 good){by D}{signed D}",
        &["ee(D,R){purpose 1.3.6.1.5.5.7.3.9}"],
        57,
    ),
    (
        "ca(R,R)",
        "ocsp(R,05 good){by D}{signed D}",
        &["ee(D,R){nocheck}"],
        57,
    ),
    (
        "ca(R,R)",
        "ocsp(R,05 good){by D}{signed D}",
        &["ee(D,R){purpose 2.5.29.37.0}{nocheck}"],
        57,
    ),
    (
        "ca(R,R)",
        "ocsp(R,05 good){by D}{signed D}",
        &["ee(D,R){signed X}{purpose 1.3.6.1.5.5.7.3.9}{nocheck}"],
        57,
    ),
    (
        "ca(R,R)",
        "ocsp(R,05 good){by D}{signed D}",
        &["ee(D,X){signed R}{purpose 1.3.6.1.5.5.7.3.9}{nocheck}"],
        57,
    ),
    (
        "ca(R,R)",
        "ocsp(R,05 good){by D}{signed D}",
        &["ee(D,R){purpose 1.3.6.1.5.5.7.3.9}{nocheck}{policy-not-critical}"],
        57,
    ),
    (
        "ca(R,R)",
        "ocsp(R,05 good){by D}{signed D}",
        &["ee(D,R){purpose 1.3.6.1.5.5.7.3.9}{nocheck}{critical 1.2.3}"],
        57,
    ),
    (
        "ca(R,R)",
        "ocsp(R,05 good){by D}{signed D}",
        &["ee(D,R){key X}{purpose 1.3.6.1.5.5.7.3.9}{nocheck}"],
        57,
    ),
    (
        "ca(R,R)",
        "ocsp(R,05 good){by D}{signed D}",
        &["ee(X,R){key D}{purpose 1.3.6.1.5.5.7.3.9}{nocheck}"],
        57,
    ),
    ("ca(R,R)", "ocsp(R,05 good){signed X}", &[], 57),
    ("ca(R,R)", "ocsp(R,05 good){by X}", &[], 57),
    ("ca(R,R)", "ocsp(R,05 good){bykey X}", &[], 57),
    ("ca(X,X)", "ocsp(R,05 good)", &[], 57),
    (
        "ca(R,R){key abc}{signed abc}",
        "ocsp(R,05 good){signed abc}",
        &[],
        58,
    ),
    (
        "ca(R,R){key abc}{signed abc}",
        "ocsp(R,05 good){signed X}",
        &[],
        57,
    ),
    ("ca(R,R)", "ocsp(R,05 good){key X}", &[], 58),
    (
        "ca(R,R)",
        "ocsp(X,05 good){by R}{signed R}{key R}{from 20259999000000Z}",
        &[],
        42,
    ),
    ("ca(X,X)", "ocsp(R,05 revoked 8)", &[], 51),
];

#[test]
fn responses_are_believed(rt: HostRuntime) -> Result<(), Fail> {
    for (issuer, response, certificates, wanted) in BELIEVED.iter() {
        let is_so = match line_of_response(rt.alloc(), issuer, response, certificates) {
            Ok(line) => line.as_str() == *wanted,
            Err(_) => false,
        };
        assert!(rt; is_so, "{response} under {issuer}");
    }
    Ok(())
}

#[test]
fn responses_are_refused(rt: HostRuntime) -> Result<(), Fail> {
    for (issuer, response, certificates, wanted) in REFUSED.iter() {
        let is_so = match line_of_response(rt.alloc(), issuer, response, certificates) {
            Err(Wrong::Refused(fault)) => {
                fault.number() == *wanted && fault.place().is_some() == (*wanted < 57)
            }
            _ => false,
        };
        assert!(rt; is_so, "{response} under {issuer}");
    }
    Ok(())
}

/// Any answer but a wrong one: a delegate for whom memory runs out is never passed over.
#[test]
fn wants_memory_or_answers(rt: HostRuntime) -> Result<(), Fail> {
    let delegate = "ee(D,R){purpose 1.3.6.1.5.5.7.3.9}{nocheck}";
    let answer = line_of_response(
        rt.alloc(),
        "ca(R,R)",
        "ocsp(R,05 good){by D}{signed D}",
        &[delegate],
    );
    let is_so = match answer {
        Ok(line) => line.as_str() == "05 good 1748736000 1748736000 1748736000 1751328000;",
        Err(wrong) => wrong == Wrong::Memory,
    };
    assert!(rt; is_so);
    Ok(())
}
