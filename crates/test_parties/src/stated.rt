//! Parties of the stated profile, to which an authority tells lists of parts.

use crate::telling::{Judged, Told, told_and_asked};
use relying::DeliverAnswer;
use relying::DeliverFault::Statement;
use relying::Verdict::{Unknown, Valid};
use statements_facts::Profile;
use std::alloc::Global;

const POINT: &[&str] = &["http://a/1"];

/// The lists that a party is given, the fault number of each answer (0 if the list is taken), and the verdicts.
type Row = (&'static [Told], &'static [u8], &'static [Judged]);

const ROWS: &[Row] = &[
    (
        &[Some(("crl(R,5)", 0, POINT))],
        &[48],
        &[(&[POINT], Unknown(1)), (&[], Unknown(1))],
    ),
    (
        &[
            Some(("crl(R,5)", 0, &[])),
            Some(("crl(R,9,[05 1])", 0, POINT)),
            None,
            Some(("crl(R,9,[05 1])", 0x81, POINT)),
        ],
        &[0, 48, 48],
        &[(&[POINT], Valid), (&[], Valid)],
    ),
];

/// The number of the fault of a statement; 0 if it is taken, 255 if the delivery failed otherwise.
fn number_of(answer: &DeliverAnswer) -> u8 {
    match answer {
        Ok(_) => 0,
        Err(Statement(fault)) => fault.number(),
        Err(_) => 255,
    }
}

fn has_numbers(answers: &[DeliverAnswer], numbers: &[u8]) -> bool {
    answers.len() == numbers.len()
        && answers
            .iter()
            .zip(numbers.iter())
            .all(|(answer, number)| number_of(answer) == *number)
}

fn holds(alloc: Global, row: &Row) -> bool {
    let (told, numbers, judged) = *row;
    match told_and_asked(alloc, Profile::Stated, told, judged) {
        Some((answers, says)) => says && has_numbers(&answers, numbers),
        None => false,
    }
}

#[test]
fn lists_of_parts_are_refused(rt: HostRuntime) {
    for (index, row) in ROWS.iter().enumerate() {
        assert!(rt; holds(rt.alloc(), row), "row {index}");
    }
}
