//! Validations step by step.

use crate::building::{MIDDLE, PathFault, certificates_of, octets_of};
use cert::Certificate;
use path::{Reason, State, Step};
use std::alloc::Global;
use std::test::Fail;
use vectors::ToyVerifier;

/// How many steps are taken of each path.
const STEPS: usize = 5;

/// What a validation answers step by step, and how many certificates have passed and subtrees are held after each step. The first
/// of the certificates is the anchor.
fn steps_of(
    alloc: Global,
    certificates: &[Certificate<'_>],
) -> Result<[(Step, usize, usize); STEPS], PathFault> {
    let [anchor, path @ ..] = certificates else {
        return Err(PathFault::Text(0));
    };
    let mut state = State::start(alloc, &ToyVerifier, anchor, path, MIDDLE, None);
    let mut steps = [(Step::Ended, 0, 0); STEPS];
    for number in 0..STEPS {
        let step = state.next()?;
        steps[number] = (step, state.done(), state.subtrees());
    }
    Ok(steps)
}

/// The steps of the path that the texts ask for, behind an anchor.
fn steps_of_texts(
    alloc: Global,
    texts: &[&str],
) -> Result<[(Step, usize, usize); STEPS], PathFault> {
    let all = octets_of(alloc, texts)?;
    let certificates = certificates_of(alloc, &all)?;
    steps_of(alloc, &certificates)
}

/// An anchor and a path, and its steps.
type Row = (&'static [&'static str], [(Step, usize, usize); STEPS]);

const ROWS: &[Row] = &[
    (
        &[
            "ca(R,R)",
            "ca(A,R){permit dns a.example}{permit uri example}",
            "ca(B,A){permit dns b.example}",
            "ee(T,B){dns x.a.example}",
        ],
        [
            (Step::Passed, 1, 1),
            (Step::Passed, 2, 0),
            (Step::Failed(Reason::NotPermitted), 2, 0),
            (Step::Failed(Reason::NotPermitted), 2, 0),
            (Step::Failed(Reason::NotPermitted), 2, 0),
        ],
    ),
    (
        &[
            "ca(R,R)",
            "ca(A,R){permit dns example}{permit dns org}{exclude ip 0A000000FF000000}",
            "ca(B,A){permit dns a.example}{permit dns b.example}{exclude dns c.a.example}",
            "ee(T,B){dns x.a.example}",
        ],
        [
            (Step::Passed, 1, 3),
            (Step::Passed, 2, 4),
            (Step::Passed, 3, 4),
            (Step::Ended, 3, 4),
            (Step::Ended, 3, 4),
        ],
    ),
    (
        &["ca(R,R)"],
        [
            (Step::Failed(Reason::Empty), 0, 0),
            (Step::Failed(Reason::Empty), 0, 0),
            (Step::Failed(Reason::Empty), 0, 0),
            (Step::Failed(Reason::Empty), 0, 0),
            (Step::Failed(Reason::Empty), 0, 0),
        ],
    ),
];

#[test]
fn goes_step_by_step(rt: HostRuntime) -> Result<(), Fail> {
    for (path, wanted) in ROWS.iter() {
        let steps = steps_of_texts(rt.alloc(), path);
        assert_eq!(rt; steps, Ok(*wanted), "{path:?}");
    }
    Ok(())
}
