//! When memory runs out.

use crate::building::{MIDDLE, PathFault, certificates_of, octets_of, outcome_of};
use cert::Certificate;
use path::{Outcome, Reason, State, Step};
use std::alloc::Global;
use std::test::Fail;
use vectors::ToyVerifier;

const FIRST: &str = "ca(A,R){permit dns example.com}{exclude dns x.example.com}";

const SECOND: &str = "ca(B,A){key B2}{permit dns a.example.com}{permit ip 0A000000FF000000}";

const LAST: &str = "ee(T,B){signed B2}{dns b.example.com}";

const PATH: &[&str] = &[FIRST, SECOND, LAST];

/// The anchor, and the path.
const ANCHORED: &[&str] = &["ca(R,R)", FIRST, SECOND, LAST];

/// The same with lists that are long enough to be put in order.
const MANY: &[&str] = &[
    "ca(R,R)",
    "ca(A,R){permit dns n0.example}{permit dns n1.example}{permit dns n2.example}{permit dns n3.example}{permit dns n4.example}{permit dns n5.example}{permit dns n6.example}{permit dns n7.example}{permit dns n8.example}{permit dns n9.example}{permit dns n10.example}{permit dns n11.example}{permit dns n12.example}{permit dns n13.example}{exclude dns n0.com}{exclude dns n1.com}{exclude dns n2.com}{exclude dns n3.com}{exclude dns n4.com}{exclude dns n5.com}{exclude dns n6.com}{exclude dns n7.com}{exclude dns n8.com}{exclude dns n9.com}{exclude dns n10.com}{exclude dns n11.com}{exclude dns n12.com}{exclude dns n13.com}",
    "ca(B,A){key B2}{permit dns a.n0.example}{permit dns a.n1.example}{permit dns a.n2.example}{permit dns a.n3.example}{permit dns a.n4.example}{permit dns a.n5.example}{permit dns a.n6.example}{permit dns a.n7.example}{permit dns a.n8.example}{permit dns a.n9.example}{permit dns a.n10.example}{permit dns a.n11.example}{permit dns a.n12.example}{permit dns a.n13.example}{exclude dns n0.org}{exclude dns n1.org}{exclude dns n2.org}{exclude dns n3.org}{exclude dns n4.org}{exclude dns n5.org}{exclude dns n6.org}{exclude dns n7.org}{exclude dns n8.org}{exclude dns n9.org}{exclude dns n10.org}{exclude dns n11.org}{exclude dns n12.org}{exclude dns n13.org}",
    "ee(T,B){signed B2}{dns b.n14.example}",
];

/// The same with directory names, of which more are looked for by their keys.
const DIRECTORIES: &[&str] = &[
    "ca(R,R)",
    "ca(A,R){permit dir n0}{permit dir n1}{permit dir n2}{permit dir n3}{permit dir n4}{permit dir n5}{permit dir n6}{permit dir n7}{permit dir n8}{permit dir n9}{permit dir n10}{permit dir n11}{permit dir n12}{permit dir n13}{permit dir n14}{permit dir n15}{permit dir n16}{permit dir n17}{permit dir n18}{permit dir n19}{permit dir n20}{permit dir n21}{permit dir n22}{permit dir n23}{permit dir n24}{permit dir n25}{permit dir n26}{permit dir n27}{permit dir n28}{permit dir n29}{permit dir n30}{permit dir n31}{permit dir n32}{permit dir n33}{permit dir B}{exclude dir x0}{exclude dir x1}{exclude dir x2}{exclude dir x3}{exclude dir x4}{exclude dir x5}{exclude dir x6}{exclude dir x7}{exclude dir x8}{exclude dir x9}{exclude dir x10}{exclude dir x11}{exclude dir x12}{exclude dir x13}",
    "ca(B,A){key B2}{permit dir n40}{permit dir n0}{permit dir n1}{permit dir n2}{permit dir n3}{permit dir n4}{permit dir n5}{permit dir n6}{permit dir n7}{permit dir n8}{permit dir n9}{permit dir n10}{permit dir n11}{permit dir n12}{permit dir n13}{permit dir n14}{permit dir n15}{permit dir n16}{permit dir n17}{permit dir n18}{permit dir n19}{permit dir n20}{permit dir n21}{permit dir n22}{permit dir n23}{permit dir n24}{permit dir n25}{permit dir n26}{permit dir n27}{permit dir n28}{permit dir n29}{permit dir n30}{permit dir n31}{permit dir n32}{permit dir n33}{exclude dir y0}{exclude dir y1}{exclude dir y2}{exclude dir y3}{exclude dir y4}{exclude dir y5}{exclude dir y6}{exclude dir y7}{exclude dir y8}{exclude dir y9}{exclude dir y10}{exclude dir y11}{exclude dir y12}{exclude dir y13}",
    "ee(T,B){signed B2}{dir n21}",
];

/// The validation of the path to its end, behind its anchor: where a step has no memory, nothing has changed, and it is taken
/// again.
fn outcome_by_steps(alloc: Global, certificates: &[Certificate<'_>]) -> Result<Outcome, PathFault> {
    let [anchor, path @ ..] = certificates else {
        return Err(PathFault::Text(0));
    };
    let mut state = State::start(alloc, &ToyVerifier, anchor, path, MIDDLE, None);
    for _ in 0..100 {
        let before = (state.done(), state.subtrees());
        match state.next() {
            Ok(Step::Passed) => {}
            Ok(Step::Ended) => return Ok(Outcome::Good),
            Ok(Step::Failed(reason)) => {
                return Ok(Outcome::Bad(state.done().saturating_add(1), reason));
            }
            Err(_) => {
                if before != (state.done(), state.subtrees()) {
                    return Err(PathFault::Text(1));
                }
            }
        }
    }
    Err(PathFault::Text(2))
}

/// The same of the texts of the anchor and the path.
fn outcome_of_texts(alloc: Global, texts: &[&str]) -> Result<Outcome, PathFault> {
    let all = octets_of(alloc, texts)?;
    let certificates = certificates_of(alloc, &all)?;
    outcome_by_steps(alloc, &certificates)
}

/// Any answer but a wrong one.
#[test]
fn wants_memory_or_answers(rt: HostRuntime) -> Result<(), Fail> {
    let wanted = Ok(Outcome::Bad(3, Reason::NotPermitted));
    let whole = outcome_of(rt.alloc(), PATH, MIDDLE, None);
    assert!(rt; whole == wanted || whole == Err(PathFault::Memory));
    let stepped = outcome_of_texts(rt.alloc(), ANCHORED);
    assert!(rt; stepped == wanted || stepped == Err(PathFault::Memory));
    let many = outcome_of_texts(rt.alloc(), MANY);
    assert!(rt; many == wanted || many == Err(PathFault::Memory));
    let directories = outcome_of_texts(rt.alloc(), DIRECTORIES);
    assert!(rt; directories == wanted || directories == Err(PathFault::Memory));
    Ok(())
}
