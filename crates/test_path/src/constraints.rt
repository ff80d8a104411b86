//! Paths whose names are constrained.

use crate::building::{MIDDLE, outcome_of};
use path::Outcome::{Bad, Good};
use path::{Outcome, Reason};
use std::test::Fail;

/// A path and the answer.
type Row = (&'static [&'static str], Outcome);

const NARROWED: &[Row] = &[
    (
        &[
            "ca(A,R){permit dns example.com}",
            "ca(B,A){permit dns a.example.com}",
            "ee(T,B){dns b.example.com}",
        ],
        Bad(3, Reason::NotPermitted),
    ),
    (
        &[
            "ca(A,R){permit dns example.com}",
            "ca(B,A){permit dns a.example.com}",
            "ee(T,B){dns x.A.example.com}",
        ],
        Good,
    ),
    (
        &[
            "ca(A,R){permit dns .example.com}",
            "ee(T,A){dns example.com}",
        ],
        Bad(2, Reason::NotPermitted),
    ),
    (
        &[
            "ca(A,R){permit dns a.example}",
            "ca(B,A){permit dns b.example}",
            "ee(T,B){dns x.a.example}",
        ],
        Bad(3, Reason::NotPermitted),
    ),
    (
        &[
            "ca(A,R){permit dns a.example}",
            "ca(B,A){permit dns b.example}",
            "ee(T,B)",
        ],
        Good,
    ),
    (
        &[
            "ca(A,R){permit dns example.com}",
            "ca(B,A){exclude dns a.example.com}",
            "ee(T,B){dns b.example.com}",
        ],
        Good,
    ),
    (
        &[
            "ca(A,R){permit dns example.com}",
            "ca(B,A){exclude dns a.example.com}",
            "ee(T,B){dns c.a.example.com}",
        ],
        Bad(3, Reason::Excluded),
    ),
    (
        &[
            "ca(A,R){permit dns example.com}",
            "ee(T,A){dns badexample.com}",
        ],
        Bad(2, Reason::NotPermitted),
    ),
];

const FORMS: &[Row] = &[
    (
        &["ca(A,R){permit dir Q}", "ee(T,A){empty}{dns x.example}"],
        Good,
    ),
    (
        &[
            "ca(A,R){permit uri example.com}",
            "ee(T,A){uri http://example.com/}",
        ],
        Bad(2, Reason::ConstraintForm),
    ),
    (&["ca(A,R){permit uri example.com}", "ee(T,A)"], Good),
    (
        &["ca(A,R){exclude uri example.com}", "ee(T,A){uri x:y}"],
        Bad(2, Reason::ConstraintForm),
    ),
    (
        &[
            "ca(A,R){permit dir T}",
            "ca(A,A){key A2}",
            "ee(T,A){signed A2}",
        ],
        Good,
    ),
    (
        &["ca(A,R){permit dir T}", "ca(A,A){key A2}"],
        Bad(2, Reason::NotPermitted),
    ),
    (
        &[
            "ca(A,R){permit ip 0A000000FF000000}",
            "ee(T,A){ip 0A010203}",
        ],
        Good,
    ),
    (
        &[
            "ca(A,R){permit ip 0A000000FF000000}",
            "ee(T,A){ip 0B010203}",
        ],
        Bad(2, Reason::NotPermitted),
    ),
    (
        &[
            "ca(A,R){permit ip 0A000000FF000000}",
            "ee(T,A){ip 0A010203000000000000000000000000}",
        ],
        Bad(2, Reason::NotPermitted),
    ),
    (
        &[
            "ca(A,R){permit ip 0000000000000000}",
            "ee(T,A){ip FF010203}",
        ],
        Good,
    ),
    (
        &[
            "ca(A,R){permit ip 0000000000000000}",
            "ee(T,A){ip 0A010203000000000000000000000000}",
        ],
        Bad(2, Reason::NotPermitted),
    ),
    (
        &[
            "ca(A,R){permit ip 0A000000FF000000}",
            "ca(B,A){permit ip 0A010000FFFF0000}",
            "ee(T,B){ip 0A020203}",
        ],
        Bad(3, Reason::NotPermitted),
    ),
];

#[test]
fn answers_by_narrowed_lists(rt: HostRuntime) -> Result<(), Fail> {
    for (path, wanted) in NARROWED.iter() {
        let outcome = outcome_of(rt.alloc(), path, MIDDLE, None);
        assert_eq!(rt; outcome, Ok(*wanted), "{path:?}");
    }
    Ok(())
}

#[test]
fn answers_by_forms(rt: HostRuntime) -> Result<(), Fail> {
    for (path, wanted) in FORMS.iter() {
        let outcome = outcome_of(rt.alloc(), path, MIDDLE, None);
        assert_eq!(rt; outcome, Ok(*wanted), "{path:?}");
    }
    Ok(())
}
