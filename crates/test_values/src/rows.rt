//! Paths, statements, and the verdicts by them.

use crate::asking::verdict_on;
use crate::notation::{MIDDLE, StatementText, read_all, statements_of};
use path::Reason;
use relying_texts::Verdict;
use relying_texts::Verdict::{Invalid, Revoked, Unknown, Valid};
use std::alloc::Global;

/// A path, the first being the anchor, statements, a moment, and the verdict.
type Row = (
    &'static [&'static str],
    &'static [StatementText],
    i64,
    Verdict,
);

const LEAF: &[&str] = &["ca(R,R)", "ee(T,R)"];

const BELOW: &[&str] = &["ca(R,R)", "ca(A,R)", "ee(T,A)"];

const FIFTH: StatementText = ("crl(R,5)", &[]);

const REVOKING: StatementText = ("crl(R,6,[05 1])", &[]);

const ROWS: &[Row] = &[
    // no statements
    (LEAF, &[], MIDDLE, Unknown(1)),
    // a list that counts, until its nextUpdate
    (LEAF, &[FIFTH], MIDDLE, Valid),
    (LEAF, &[FIFTH], 1_751_328_000, Valid),
    (LEAF, &[FIFTH], 1_751_328_001, Unknown(1)),
    // the newest list counts, in whichever order they come
    (LEAF, &[FIFTH, REVOKING], MIDDLE, Revoked(1, 1)),
    (LEAF, &[REVOKING, FIFTH], MIDDLE, Revoked(1, 1)),
    (LEAF, &[("crl(R,4,[05 1])", &[]), FIFTH], MIDDLE, Valid),
    // of two lists of one number the first
    (LEAF, &[FIFTH, ("crl(R,5,[05 1])", &[])], MIDDLE, Valid),
    (
        LEAF,
        &[("crl(R,5,[05 1])", &[]), FIFTH],
        MIDDLE,
        Revoked(1, 1),
    ),
    // a serial number that is listed twice has its first reason
    (
        LEAF,
        &[("crl(R,5,[05 1][05 4])", &[])],
        MIDDLE,
        Revoked(1, 1),
    ),
    // a list with another signature, and one of another issuer change nothing
    (
        LEAF,
        &[("crl(R,9,[05 1]){signed X}", &[]), FIFTH],
        MIDDLE,
        Valid,
    ),
    (LEAF, &[("crl(X,9,[05 1])", &[]), FIFTH], MIDDLE, Valid),
    (LEAF, &[("crl(X,9,[05 1])", &[])], MIDDLE, Unknown(1)),
    // responses, of the issuer and of a delegate
    (LEAF, &[("ocsp(R,05 good)", &[])], MIDDLE, Valid),
    (LEAF, &[("ocsp(R,05 unknown)", &[])], MIDDLE, Unknown(1)),
    (LEAF, &[("ocsp(R,06 good)", &[])], MIDDLE, Unknown(1)),
    (
        LEAF,
        &[("ocsp(R,05 revoked 4)", &[])],
        MIDDLE,
        Revoked(1, 4),
    ),
    (
        LEAF,
        &[FIFTH, ("ocsp(R,05 revoked 4)", &[])],
        MIDDLE,
        Revoked(1, 4),
    ),
    (
        LEAF,
        &[(
            "ocsp(R,05 good){by D}{signed D}",
            &["ee(D,R){purpose 1.3.6.1.5.5.7.3.9}{nocheck}"],
        )],
        MIDDLE,
        Valid,
    ),
    (
        LEAF,
        &[("ocsp(R,05 good){by D}{signed D}", &["ee(D,R)"])],
        MIDDLE,
        Unknown(1),
    ),
    // each certificate of the path by statements of its own issuer
    (BELOW, &[FIFTH], MIDDLE, Unknown(2)),
    (BELOW, &[("crl(A,5)", &[])], MIDDLE, Unknown(1)),
    (BELOW, &[("crl(A,5)", &[]), FIFTH], MIDDLE, Valid),
    (
        BELOW,
        &[FIFTH, ("crl(A,5,[05 0])", &[])],
        MIDDLE,
        Revoked(2, 0),
    ),
    (
        BELOW,
        &[("crl(A,5,[05 0])", &[]), REVOKING],
        MIDDLE,
        Revoked(1, 1),
    ),
    (BELOW, &[FIFTH, ("ocsp(A,05 good)", &[])], MIDDLE, Valid),
    // a path that is invalid, whatever the statements say
    (
        &["ca(R,R)", "ee(T,X)"],
        &[REVOKING],
        MIDDLE,
        Invalid(1, Reason::Signature),
    ),
];

/// The place of the first row, from 0 on, whose verdict is another.
fn first_wrong(alloc: Global, rows: &[Row]) -> Option<usize> {
    for (place, row) in rows.iter().enumerate() {
        let (path, statements, moment, wanted) = *row;
        if verdict_on(alloc, path, statements, moment) != Some(Ok(wanted)) {
            return Some(place);
        }
    }
    None
}

/// A list, and octets that are neither a list nor a response.
const NONE: &[StatementText] = &[FIFTH, ("", &[])];

#[test]
fn octets_that_are_no_statement_are_refused(rt: HostRuntime) {
    let alloc = rt.alloc();
    assert!(rt; statements_of(alloc, NONE).is_some_and(|texts| read_all(alloc, &texts).is_none()));
}

#[test]
fn verdicts_are_those_of_the_newest_statements(rt: HostRuntime) {
    assert_eq!(rt; first_wrong(rt.alloc(), ROWS), None);
}
