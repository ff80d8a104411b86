//! Searches over the authority.

use super::*;
use crate::authority::GOOD;
use crate::tests::{
    DECEMBER, certificates, counted, good, has_print, lists, place, refusal, revoking, text,
    verdict,
};
use capi_values::{
    FindingAnswer, Limits, Refusal, SearchOfTexts, SignatureQuestion, Text, VerdictAnswer,
};
use std::alloc::Global;

pub(crate) const LIMITS: Limits = Limits {
    signatures: 1000,
    steps: 10000,
    verdicts: 32,
};

pub(crate) fn search<'a>(
    anchors: &'a [Text<'a>],
    target: Text<'a>,
    bag: &'a [Text<'a>],
    limits: Limits,
) -> SearchOfTexts<'a> {
    SearchOfTexts {
        anchors,
        target,
        bag,
        moment: DECEMBER,
        purpose: text(b""),
        limits,
        wide: 0,
    }
}

/// What is found for the leaf under the root, and another anchor, beside another certificate.
fn found(
    alloc: Global,
    statements: &[Text<'_>],
    prints: &[[u8; 32]],
    limits: Limits,
    path: &mut [usize],
) -> FindingAnswer {
    let [root, middle, leaf] = certificates();
    let (anchors, bag) = ([leaf, root], [root, middle]);
    let search = search(&anchors, leaf, &bag, limits);
    x509check_find(alloc, &search, statements, prints, path)
}

fn finding(verdict: VerdictAnswer, path_count: usize) -> FindingAnswer {
    FindingAnswer {
        verdict,
        path_count,
    }
}

/// The anchors have 0 and 1, the target 2, the bag 3 and 4.
#[test]
fn finds_paths(rt: HostRuntime) {
    let (alloc, mut path) = (rt.alloc(), [9; 4]);
    let valid = found(alloc, &lists(), &good(), LIMITS, &mut path);
    assert!(rt; valid == finding(verdict(1, 0, 0), 3));
    assert!(rt; path == [1, 4, 2, 9]);
    let mut front = [9; 2];
    let unknown = found(alloc, &[], &good(), LIMITS, &mut front);
    assert!(rt; unknown == finding(verdict(4, 1, 0), 3));
    assert!(rt; front == [1, 4]);
    let revoked = found(alloc, &revoking(), &good(), LIMITS, &mut []);
    assert!(rt; revoked == finding(verdict(3, 2, 1), 3));
}

#[test]
fn finds_nothing(rt: HostRuntime) {
    let (alloc, mut path) = (rt.alloc(), [9; 2]);
    let nothing = found(alloc, &lists(), &[], LIMITS, &mut path);
    assert!(rt; nothing == finding(verdict(6, 0, 0), 0));
    let spent = found(alloc, &lists(), &good(), Limits::default(), &mut path);
    assert!(rt; spent == finding(verdict(7, 0, 0), 0));
    assert!(rt; path == [9, 9]);
}

#[test]
fn refuses_texts_of_searches(rt: HostRuntime) {
    let (alloc, mut path) = (rt.alloc(), [9; 2]);
    let [root, middle, leaf] = certificates();
    let (anchors, none) = ([root], [text(b"")]);
    let rows: [(SearchOfTexts<'_>, Refusal); 4] = [
        (search(&none, leaf, &[], LIMITS), refusal(1, 21, 4, 0, 0)),
        (
            search(&anchors, none[0], &[], LIMITS),
            refusal(1, 21, 4, 1, 0),
        ),
        (
            search(&anchors, leaf, &none, LIMITS),
            refusal(1, 21, 4, 2, 0),
        ),
        (search(&anchors, leaf, &[], LIMITS), refusal(2, 43, 0, 0, 8)),
    ];
    for (search, refusal) in rows {
        let answer = x509check_find(alloc, &search, &[middle], &good(), &mut path);
        assert!(rt; answer.verdict.verdict == 5 && answer.path_count == 0);
        assert!(rt; answer.verdict.refusal == refusal);
        let asked = x509check_find_questions(alloc, &search, &[middle], &mut []);
        assert!(rt; asked.refusal == refusal && asked.count == 0);
    }
    assert!(rt; path == [9, 9]);
}

#[test]
fn searching_wants_memory_or_answers(rt: HostRuntime) {
    let answer = found(rt.alloc(), &lists(), &good(), LIMITS, &mut []);
    let refused = refusal(0, 33, 0, 0, 0);
    assert!(rt; answer == finding(verdict(1, 0, 0), 3) || answer.verdict.refusal == refused);
}

/// About the leaf and the issuer, each under the certificate with its issuer's name, and the list of each of these; the fingerprints are
/// those that `bin/verdicts` printed.
#[test]
fn tells_questions_of_searches(rt: HostRuntime) {
    let [root, middle, leaf] = certificates();
    let (anchors, bag) = ([leaf, root], [leaf, middle]);
    let search = search(&anchors, leaf, &bag, Limits::default());
    let mut questions = [SignatureQuestion::default(); 5];
    let asked = x509check_find_questions(rt.alloc(), &search, &lists(), &mut questions);
    assert!(rt; asked == counted(4));
    assert!(rt; has_print(&questions[0], &GOOD[..32]));
    assert!(rt; questions[0].key_info == place(1, 1, 149, 91));
    assert!(rt; questions[0].signature.index == 4);
    assert!(rt; has_print(&questions[1], &GOOD[32..64]));
    assert!(rt; questions[1].key_info == place(1, 4, 132, 91));
    assert!(rt; questions[1].message == place(1, 2, 4, 332));
    assert!(rt; has_print(&questions[2], &GOOD[64..96]));
    assert!(rt; has_print(&questions[3], &GOOD[96..128]));
    assert!(rt; questions[4] == SignatureQuestion::default());
}
