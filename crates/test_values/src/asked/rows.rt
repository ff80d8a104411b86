//! Paths, statements, what is asked about them, and the verdicts by the answers.

use super::asking::{Pair, are_asked};
use crate::notation::StatementText;
use path::Reason;
use relying_questions::WhichText::{Certificate, Statement as Told};
use relying_texts::Verdict;
use relying_texts::Verdict::{Invalid, Revoked, Unknown, Valid};
use std::alloc::Global;

/// A path, the first being the anchor, statements, the questions, and the verdict.
type Row = (
    &'static [&'static str],
    &'static [StatementText],
    &'static [Pair],
    Verdict,
);

const LEAF: &[&str] = &["ca(R,R)", "ee(T,R)"];

const BELOW: &[&str] = &["ca(R,R)", "ca(A,R)", "ee(T,A)"];

const FIFTH: StatementText = ("crl(R,5)", &[]);

/// The leaf under the anchor.
const FIRST: Pair = (Certificate(0), Certificate(1));

/// The first statement under the anchor's key.
const UNDER: Pair = (Certificate(0), Told(0));

const ROWS: &[Row] = &[
    // the certificates of the path, each under the one before it
    (LEAF, &[], &[FIRST], Unknown(1)),
    (
        BELOW,
        &[],
        &[FIRST, (Certificate(1), Certificate(2))],
        Unknown(1),
    ),
    (&["ca(R,R)"], &[], &[], Invalid(0, Reason::Empty)),
    // lists under the issuers that they name, and under no other
    (LEAF, &[FIFTH], &[FIRST, UNDER], Valid),
    (
        LEAF,
        &[("crl(R,6,[05 1])", &[])],
        &[FIRST, UNDER],
        Revoked(1, 1),
    ),
    (LEAF, &[("crl(X,9,[05 1])", &[])], &[FIRST], Unknown(1)),
    (
        LEAF,
        &[("crl(R,9,[05 1]){signed X}", &[])],
        &[FIRST, UNDER],
        Unknown(1),
    ),
    (
        BELOW,
        &[("crl(A,5)", &[]), FIFTH],
        &[
            FIRST,
            (Certificate(1), Certificate(2)),
            (Certificate(1), Told(0)),
            (Certificate(0), Told(1)),
        ],
        Valid,
    ),
    // an issuer that stands on the path twice is asked about twice
    (
        &["ca(R,R)", "ca(A,R)", "ca(A,A)", "ee(T,A)"],
        &[("crl(A,5)", &[])],
        &[
            FIRST,
            (Certificate(1), Certificate(2)),
            (Certificate(2), Certificate(3)),
            (Certificate(1), Told(0)),
            (Certificate(2), Told(0)),
        ],
        Unknown(1),
    ),
    // responses under the issuer that the responder id names, by its name or its key
    (LEAF, &[("ocsp(R,05 good)", &[])], &[FIRST, UNDER], Valid),
    (
        LEAF,
        &[("ocsp(R,05 good){bykey R}", &[])],
        &[FIRST, UNDER],
        Valid,
    ),
    (
        LEAF,
        &[("ocsp(R,05 good){signed X}", &[])],
        &[FIRST, UNDER],
        Unknown(1),
    ),
    (
        LEAF,
        &[("ocsp(R,05 good){by X}{signed X}", &[])],
        &[FIRST],
        Unknown(1),
    ),
    // a delegate's certificate under the issuer, and the response under the delegate
    (
        LEAF,
        &[(
            "ocsp(R,05 good){by D}{signed D}",
            &["ee(D,R){purpose 1.3.6.1.5.5.7.3.9}{nocheck}"],
        )],
        &[FIRST, UNDER, (Told(0), Told(0))],
        Valid,
    ),
    (
        LEAF,
        &[(
            "ocsp(R,05 good){bykey D}{signed D}",
            &["ee(E,R)", "ee(D,R){purpose 1.3.6.1.5.5.7.3.9}{nocheck}"],
        )],
        &[FIRST, UNDER, (Told(0), Told(0))],
        Valid,
    ),
    // values of certs that are no certificates are passed over, before a delegate's and behind it
    (LEAF, &[("ocsp(R,05 good)", &[""])], &[FIRST, UNDER], Valid),
    (
        LEAF,
        &[(
            "ocsp(R,05 good){by D}{signed D}",
            &["", "ee(D,R){purpose 1.3.6.1.5.5.7.3.9}{nocheck}", ""],
        )],
        &[FIRST, UNDER, (Told(0), Told(0))],
        Valid,
    ),
    // one whose extensions do not let it sign, and one of another issuer
    (
        LEAF,
        &[("ocsp(R,05 good){by D}{signed D}", &["ee(D,R)"])],
        &[FIRST, UNDER],
        Unknown(1),
    ),
    (
        LEAF,
        &[(
            "ocsp(R,05 good){by D}{signed D}",
            &["ee(D,X){purpose 1.3.6.1.5.5.7.3.9}{nocheck}"],
        )],
        &[FIRST],
        Unknown(1),
    ),
    // a path that is invalid
    (
        &["ca(R,R)", "ee(T,X)"],
        &[FIFTH],
        &[FIRST, UNDER],
        Invalid(1, Reason::Signature),
    ),
];

/// The place of the first row, from 0 on, of which something else is asked.
fn first_wrong(alloc: Global, rows: &[Row]) -> Option<usize> {
    for (place, row) in rows.iter().enumerate() {
        let (path, statements, pairs, wanted) = *row;
        if are_asked(alloc, path, statements, pairs, wanted) != Some(true) {
            return Some(place);
        }
    }
    None
}

#[test]
fn questions_are_those_of_the_rows(rt: HostRuntime) {
    assert_eq!(rt; first_wrong(rt.alloc(), ROWS), None);
}

/// Any answer but a wrong one.
#[test]
fn questions_want_memory_or_answer(rt: HostRuntime) {
    let delegated: StatementText = (
        "ocsp(R,05 good){by D}{signed D}",
        &["ee(D,R){purpose 1.3.6.1.5.5.7.3.9}{nocheck}"],
    );
    let pairs = [FIRST, UNDER, (Told(0), Told(0)), (Certificate(0), Told(1))];
    let answer = are_asked(rt.alloc(), LEAF, &[delegated, FIFTH], &pairs, Valid);
    assert!(rt; answer != Some(false));
}
