//! What parties take, and what they say then.

use crate::asking::{MIDDLE, verdict_on};
use crate::telling::{Question, Told, asked};
use relying::DeliverFault::Statement;
use relying::Verdict::{Revoked, Unknown, Valid};
use relying::{DeliverAnswer, Node, Verdict};
use sqlite_disk::Disk;
use statements_facts::Counts;
use statements_parts::StatementFault::BadSignature;
use std::alloc::Global;
use vectors::ToyVerifier;

pub const STORED: DeliverAnswer = Ok(Counts {
    stored: 1,
    kept: 0,
    contradicted: 0,
});

const KEPT: DeliverAnswer = Ok(Counts {
    stored: 0,
    kept: 1,
    contradicted: 0,
});

const CONTRADICTED: DeliverAnswer = Ok(Counts {
    stored: 0,
    kept: 0,
    contradicted: 1,
});

const REFUSED: DeliverAnswer = Err(Statement(BadSignature));

/// Of two that say something else at the same time the first.
const FIRST_OF_TWO: DeliverAnswer = Ok(Counts {
    stored: 1,
    kept: 0,
    contradicted: 1,
});

/// A path, the first being the anchor, a moment, and the verdict.
type Judged = (&'static [&'static str], i64, Verdict);

/// The answers of a party, and what it says then.
#[derive(Clone, Copy)]
struct Says(&'static [DeliverAnswer], &'static [Judged]);

/// What reaches a party, and the rest.
type Row = (&'static [Told], Says);

pub const LEAF: &[&str] = &["ca(R,R)", "ee(T,R)"];

const BELOW: &[&str] = &["ca(R,R)", "ca(A,R)", "ee(T,A)"];

pub const FIFTH: Told = Some(("ca(R,R)", "crl(R,5)", &[]));

pub const REVOKING: Told = Some(("ca(R,R)", "crl(R,6,[05 1])", &[]));

/// A leaf of another serial number.
const SIXTH: &[&str] = &["ca(R,R)", "ee(T,R){serial 06}"];

/// 2^159 - 1, of 20 octets.
const LESSER: Told = Some((
    "ca(R,R)",
    "crl(R,0,[05 1]){number 7FFFFFFFFFFFFFFFFFFFFFFFFFFFFFFFFFFFFFFF}",
    &[],
));

/// 2^159, of 21.
const GREATER: Told = Some((
    "ca(R,R)",
    "crl(R,0){number 008000000000000000000000000000000000000000}",
    &[],
));

/// A serial number twice.
const TWICE: Told = Some(("ca(R,R)", "crl(R,5,[05 1][05 4][06 0])", &[]));

const LISTS: &[Row] = &[
    (&[], Says(&[], &[(LEAF, MIDDLE, Unknown(1))])),
    (&[None, None], Says(&[], &[(LEAF, MIDDLE, Unknown(1))])),
    (
        &[
            Some(("ca(R,R)", "crl(R,3)", &[])),
            FIFTH,
            Some(("ca(R,R)", "crl(R,4)", &[])),
            FIFTH,
            Some(("ca(R,R)", "crl(R,5,[05 1])", &[])),
        ],
        Says(
            &[STORED, STORED, KEPT, KEPT, CONTRADICTED],
            &[(LEAF, MIDDLE, Valid)],
        ),
    ),
    (
        &[FIFTH],
        Says(
            &[STORED],
            &[
                (LEAF, 1_751_328_000, Valid),
                (LEAF, 1_751_328_001, Unknown(1)),
            ],
        ),
    ),
    (
        &[FIFTH, None, REVOKING, None],
        Says(&[STORED, STORED], &[(LEAF, MIDDLE, Revoked(1, 1))]),
    ),
    (
        &[
            Some(("ca(R,R)", "crl(R,3)", &[])),
            None,
            Some(("ca(R,R)", "crl(R,1)", &[])),
            Some(("ca(R,R)", "crl(R,9){signed X}", &[])),
        ],
        Says(&[STORED, KEPT, REFUSED], &[(LEAF, MIDDLE, Valid)]),
    ),
    (
        &[LESSER, GREATER, LESSER],
        Says(&[STORED, STORED, KEPT], &[(LEAF, MIDDLE, Valid)]),
    ),
    (
        &[
            FIFTH,
            Some(("ca(R,R)", "crl(R,5){next 250701000001Z}", &[])),
        ],
        Says(
            &[STORED, CONTRADICTED],
            &[
                (LEAF, 1_751_328_000, Valid),
                (LEAF, 1_751_328_001, Unknown(1)),
            ],
        ),
    ),
    (
        &[
            Some(("ca(R,R)", "crl(R,5,[05 1])", &[])),
            Some(("ca(R,R)", "crl(R,5,[05 1][05 4])", &[])),
        ],
        Says(&[STORED, KEPT], &[(LEAF, MIDDLE, Revoked(1, 1))]),
    ),
    (
        &[
            TWICE,
            Some(("ca(R,R)", "crl(R,5,[06 0][05 1])", &[])),
            Some(("ca(R,R)", "crl(R,5,[05 1])", &[])),
            Some(("ca(A,A)", "crl(A,1,[05 1])", &[])),
        ],
        Says(
            &[STORED, KEPT, CONTRADICTED, STORED],
            &[
                (LEAF, MIDDLE, Revoked(1, 1)),
                (SIXTH, MIDDLE, Revoked(1, 0)),
            ],
        ),
    ),
    (
        &[TWICE, Some(("ca(R,R)", "crl(R,6)", &[]))],
        Says(
            &[STORED, STORED],
            &[(LEAF, MIDDLE, Valid), (SIXTH, MIDDLE, Valid)],
        ),
    ),
];

/// By a delegate whose certificate ends on 2025-06-10.
const DELEGATED: Told = Some((
    "ca(R,R)",
    "ocsp(R,05 good){by D}{signed D}",
    &["ee(D,R){purpose 1.3.6.1.5.5.7.3.9}{nocheck}{until 250610000000Z}"],
));

/// From 2025-06-15 on, and for a day.
const OPEN: &str = "ocsp(R,05 good){from 20250615000000Z}{open}";

/// What it says of a certificate first counts.
const BOTH: Told = Some(("ca(R,R)", "ocsp(R,05 good,05 revoked 1)", &[]));

const RESPONSES: &[Row] = &[
    (
        &[DELEGATED],
        Says(
            &[STORED],
            &[(LEAF, MIDDLE, Unknown(1)), (LEAF, 1_749_513_600, Valid)],
        ),
    ),
    (
        &[DELEGATED, None, FIFTH],
        Says(&[STORED, STORED], &[(LEAF, MIDDLE, Valid)]),
    ),
    (
        &[DELEGATED, FIFTH, REVOKING],
        Says(&[STORED, STORED, STORED], &[(LEAF, MIDDLE, Revoked(1, 1))]),
    ),
    (
        &[Some(("ca(R,R)", OPEN, &[]))],
        Says(
            &[STORED],
            &[
                (LEAF, 1_750_032_000, Valid),
                (LEAF, 1_750_032_001, Unknown(1)),
            ],
        ),
    ),
    (
        &[Some((
            "ca(R,R)",
            "ocsp(R,05 unknown){from 20250615000000Z}{open}",
            &[],
        ))],
        Says(&[STORED], &[(LEAF, MIDDLE, Unknown(1))]),
    ),
    (&[BOTH], Says(&[FIRST_OF_TWO], &[(LEAF, MIDDLE, Valid)])),
    (
        &[
            BOTH,
            Some((
                "ca(R,R)",
                "ocsp(R,05 revoked 4){produced 20250601000001Z}",
                &[],
            )),
        ],
        Says(&[FIRST_OF_TWO, STORED], &[(LEAF, MIDDLE, Revoked(1, 4))]),
    ),
];

const SCOPES: &[Row] = &[
    (
        &[Some(("ca(R,R)", "crl(R,5){scope user}", &[]))],
        Says(
            &[STORED],
            &[
                (LEAF, MIDDLE, Valid),
                (&["ca(R,R)", "ca(A,R)"], MIDDLE, Unknown(1)),
            ],
        ),
    ),
    (
        &[
            Some(("ca(R,R)", "crl(R,5){scope ca}", &[])),
            Some(("ca(A,A)", "crl(A,1)", &[])),
        ],
        Says(&[STORED, STORED], &[(BELOW, MIDDLE, Valid)]),
    ),
    (
        &[Some(("ca(R,R)", "crl(R,5){scope ca}", &[]))],
        Says(&[STORED], &[(BELOW, MIDDLE, Unknown(2))]),
    ),
    (
        &[Some(("ca(R,R)", "crl(R,7,[05 1]){scope user}", &[])), FIFTH],
        Says(
            &[STORED, STORED],
            &[
                (LEAF, MIDDLE, Revoked(1, 1)),
                (&["ca(R,R)", "ca(A,R)"], MIDDLE, Valid),
            ],
        ),
    ),
];

impl Question for Says {
    fn is_answered<D: Disk + Drop>(
        &self,
        alloc: Global,
        party: &mut Node<ToyVerifier, D>,
        answers: &[DeliverAnswer],
    ) -> bool {
        for (path, moment, verdict) in self.1 {
            if verdict_on(alloc, party, path, *moment) != Some(Ok(*verdict)) {
                return false;
            }
        }
        answers == self.0
    }
}

/// The number of the first row that does not hold.
fn first_wrong(alloc: Global, rows: &[Row]) -> Option<usize> {
    for (index, (told, wanted)) in rows.iter().enumerate() {
        if asked(alloc, told, wanted) != Some(true) {
            return Some(index);
        }
    }
    None
}

#[test]
fn lists_in_turn(rt: HostRuntime) {
    assert_eq!(rt; first_wrong(rt.alloc(), LISTS), None);
}

#[test]
fn responses_and_their_windows(rt: HostRuntime) {
    assert_eq!(rt; first_wrong(rt.alloc(), RESPONSES), None);
}

#[test]
fn lists_for_some_certificates(rt: HostRuntime) {
    assert_eq!(rt; first_wrong(rt.alloc(), SCOPES), None);
}
