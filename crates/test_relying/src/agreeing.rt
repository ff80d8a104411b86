//! Where parties agree.

use crate::answering::LEAF;
use crate::asking::compared;
use crate::telling::Told;
use relying::Comparison;
use relying::Comparison::{Differ, Same};
use relying::Verdict::{Revoked, Unknown, Valid};
use std::alloc::Global;

/// What reaches either, and the comparison on `ee(T,R)`.
type Row = (&'static [Told], &'static [Told], Comparison);

const ROWS: &[Row] = &[
    (&[], &[], Same(Unknown(1))),
    (
        &[
            Some(("ca(R,R)", "crl(R,1)", &[])),
            Some(("ca(R,R)", "crl(R,2)", &[])),
            Some(("ca(R,R)", "crl(R,3)", &[])),
        ],
        &[
            Some(("ca(R,R)", "crl(R,3)", &[])),
            None,
            Some(("ca(R,R)", "crl(R,1)", &[])),
            Some(("ca(R,R)", "crl(R,1)", &[])),
            Some(("ca(R,R)", "crl(R,9){signed X}", &[])),
        ],
        Same(Valid),
    ),
    (
        &[Some(("ca(R,R)", "crl(R,3)", &[]))],
        &[
            Some(("ca(R,R)", "crl(R,3)", &[])),
            Some(("ca(R,R){key X}{signed X}", "crl(R,9){signed X}", &[])),
        ],
        Same(Valid),
    ),
    (
        &[Some(("ca(R,R)", "crl(R,5)", &[]))],
        &[
            Some(("ca(R,R)", "crl(R,5)", &[])),
            Some(("ca(R,R)", "crl(R,6,[05 1])", &[])),
        ],
        Differ(Valid, Revoked(1, 1), 1),
    ),
];

fn holds_for(alloc: Global, row: &Row) -> bool {
    let (first, second, wanted) = *row;
    match compared(alloc, (first, second), LEAF) {
        Some((comparison, _)) => comparison == Ok(wanted),
        None => false,
    }
}

#[test]
fn where_they_hold_the_same(rt: HostRuntime) {
    for (index, row) in ROWS.iter().enumerate() {
        assert!(rt; holds_for(rt.alloc(), row), "row {index}");
    }
}
