//! Lines of answers.

use cli_answers::{comparison_to, counts_to, verdict_to};
use path::Reason;
use relying_agreement::{Comparison, Verdict};
use statements_facts::Counts;
use std::test::Fail;

const VERDICTS: &[(Verdict, &[u8])] = &[
    (Verdict::Valid, b"valid\n"),
    (
        Verdict::Invalid(1, Reason::Expired),
        b"invalid 1 4 Expired\n",
    ),
    (
        Verdict::Invalid(0, Reason::TooLong),
        b"invalid 0 16 TooLong\n",
    ),
    (
        Verdict::Invalid(128, Reason::Repeated),
        b"invalid 128 1 Repeated\n",
    ),
    (Verdict::Revoked(1, 1), b"revoked 1 1\n"),
    (Verdict::Revoked(12, 0), b"revoked 12 0\n"),
    (Verdict::Unknown(2), b"unknown 2\n"),
];

#[test]
fn writes_verdicts(rt: HostRuntime) -> Result<(), Fail> {
    for (verdict, wanted) in VERDICTS.iter() {
        let mut line = Vec::new(rt.alloc());
        verdict_to(*verdict, &mut line)?;
        assert!(rt; line.as_slice() == *wanted);
    }
    Ok(())
}

const COMPARISONS: &[(Comparison, &[u8])] = &[
    (Comparison::Same(Verdict::Valid), b"same valid\n"),
    (
        Comparison::Same(Verdict::Invalid(1, Reason::Signature)),
        b"same invalid 1 2 Signature\n",
    ),
    (
        Comparison::Differ(Verdict::Valid, Verdict::Revoked(2, 4), 2),
        b"differ 2: valid; revoked 2 4\n",
    ),
    (
        Comparison::Differ(Verdict::Unknown(1), Verdict::Valid, 1),
        b"differ 1: unknown 1; valid\n",
    ),
];

#[test]
fn writes_comparisons(rt: HostRuntime) -> Result<(), Fail> {
    for (comparison, wanted) in COMPARISONS.iter() {
        let mut line = Vec::new(rt.alloc());
        comparison_to(*comparison, &mut line)?;
        assert!(rt; line.as_slice() == *wanted);
    }
    Ok(())
}

const COUNTS: &[(usize, usize, usize, &[u8])] = &[
    (1, 0, 0, b"stored 1 kept 0 contradicted 0\n"),
    (0, 1, 0, b"stored 0 kept 1 contradicted 0\n"),
    (1, 0, 1, b"stored 1 kept 0 contradicted 1\n"),
    (
        10,
        256,
        18_446_744_073_709_551_615,
        b"stored 10 kept 256 contradicted 18446744073709551615\n",
    ),
];

#[test]
fn writes_counts(rt: HostRuntime) -> Result<(), Fail> {
    for (stored, kept, contradicted, wanted) in COUNTS.iter() {
        let counts = Counts {
            stored: *stored,
            kept: *kept,
            contradicted: *contradicted,
        };
        let mut line = Vec::new(rt.alloc());
        counts_to(&counts, &mut line)?;
        assert!(rt; line.as_slice() == *wanted);
    }
    Ok(())
}
