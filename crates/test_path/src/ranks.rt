//! Paths of which a certificate breaks a condition that has nothing to do with names.

use crate::building::{MIDDLE, outcome_of};
use path::Outcome::{Bad, Good};
use path::{Outcome, Reason};
use std::test::Fail;

/// A path, a moment, the purpose asked for, and the answer.
type Row = (&'static [&'static str], i64, Option<&'static [u8]>, Outcome);

/// 1.3.6.1.5.5.7.3.9
const OCSP_SIGNING: &[u8] = b"\x2B\x06\x01\x05\x05\x07\x03\x09";

const ROWS: &[Row] = &[
    (&["ee(T,R)"], 1_767_225_600, None, Good),
    (&["ee(T,R)"], 1_767_225_601, None, Bad(1, Reason::Expired)),
    (&["ee(T,R)"], 1_735_689_600, None, Good),
    (&["ee(T,R)"], 1_735_689_599, None, Bad(1, Reason::NotYet)),
    (
        &[
            "ca(A,R){pathlen 0}",
            "ca(A,A){key A2}",
            "ee(T,A){signed A2}",
        ],
        MIDDLE,
        None,
        Good,
    ),
    (
        &["ca(A,R){pathlen 0}", "ca(B,A)", "ee(T,B)"],
        MIDDLE,
        None,
        Bad(2, Reason::PathLength),
    ),
    (
        &[
            "ca(A,R){pathlen 1}",
            "ca(B,A){pathlen 5}",
            "ca(C,B)",
            "ee(T,C)",
        ],
        MIDDLE,
        None,
        Bad(3, Reason::PathLength),
    ),
    (&["ee(A,R)", "ee(T,A)"], MIDDLE, None, Bad(1, Reason::NotCa)),
    (&["ee(A,R)"], MIDDLE, None, Good),
    (
        &["ee(T,R){signed X}"],
        1_767_225_601,
        None,
        Bad(1, Reason::Signature),
    ),
    (&[], MIDDLE, None, Bad(0, Reason::Empty)),
    (
        &["ee(T,R){purpose 1.2.3}"],
        MIDDLE,
        Some(OCSP_SIGNING),
        Bad(1, Reason::Purpose),
    ),
    (&["ee(T,R){purpose 1.2.3}"], MIDDLE, None, Good),
    (
        &["ee(T,R){purpose 2.5.29.37.0}"],
        MIDDLE,
        Some(OCSP_SIGNING),
        Good,
    ),
    (&["ee(T,R)"], MIDDLE, Some(OCSP_SIGNING), Good),
    (&["ee(T,R){policy}"], MIDDLE, None, Bad(1, Reason::Policy)),
    (
        &["ee(T,R){policy-not-critical}"],
        MIDDLE,
        None,
        Bad(1, Reason::Policy),
    ),
    (
        &["ca(A,R)", "ca(A,R)", "ee(T,A)"],
        MIDDLE,
        None,
        Bad(2, Reason::Repeated),
    ),
    (&["ca(R,R)", "ee(T,R)"], MIDDLE, None, Good),
    (&["ee(T,A){signed R}"], MIDDLE, None, Bad(1, Reason::Issuer)),
    (
        &["ca(A,R){usage 0780}", "ee(T,A)"],
        MIDDLE,
        None,
        Bad(1, Reason::KeyCertSign),
    ),
    (&["ca(A,R){usage 0204}", "ee(T,A)"], MIDDLE, None, Good),
    (&["ca(A,R){usage 0780}"], MIDDLE, None, Good),
    (
        &["ee(T,R){critical 1.2.3}"],
        MIDDLE,
        None,
        Bad(1, Reason::CriticalUnknown),
    ),
];

#[test]
fn answers_by_conditions(rt: HostRuntime) -> Result<(), Fail> {
    for (path, moment, purpose, wanted) in ROWS.iter() {
        let outcome = outcome_of(rt.alloc(), path, *moment, *purpose);
        assert_eq!(rt; outcome, Ok(*wanted), "{path:?}");
    }
    Ok(())
}
