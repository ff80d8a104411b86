//! Why searches over the authority find no path.

use super::*;
use crate::searches::{LIMITS, search};
use crate::tests::{certificates, good, refusal, text};
use capi_values::{Limits, NumberedObstacle, SearchOfTexts, Text, WhyNotAnswer};
use std::alloc::Global;

/// id-kp-clientAuth (RFC 5280, 4.2.1.12); the leaf is for id-kp-serverAuth.
const CLIENT: &[u8] = b"\x2B\x06\x01\x05\x05\x07\x03\x02";

/// What is written to arrays of two.
#[derive(Drop)]
struct Written {
    above: [usize; 2],
    anchors: [usize; 2],
    obstacles: [NumberedObstacle; 2],
}

fn obstacle(certificate: usize, reason: u32) -> NumberedObstacle {
    NumberedObstacle {
        certificate,
        reason,
    }
}

/// Why no path to the leaf is found, under the leaf as another anchor and the root, by this bag; and what is written over nines.
fn why(
    alloc: Global,
    bag: &[Text<'_>],
    prints: &[[u8; 32]],
    limits: Limits,
) -> (WhyNotAnswer, Written) {
    let [root, _, leaf] = certificates();
    let anchors = [leaf, root];
    let search = search(&anchors, leaf, bag, limits);
    let mut written = Written {
        above: [9; 2],
        anchors: [9; 2],
        obstacles: [obstacle(9, 9); 2],
    };
    let answer = x509check_why_not(
        alloc,
        &search,
        prints,
        &mut written.above,
        &mut written.anchors,
        &mut written.obstacles,
    );
    (answer, written)
}

/// An end is told, with so many certificates.
fn end(above_count: usize, anchor_count: usize, obstacle_count: usize) -> WhyNotAnswer {
    WhyNotAnswer {
        why: 9,
        above_count,
        anchor_count,
        obstacle_count,
        ..WhyNotAnswer::default()
    }
}

/// The anchors have 0 and 1, the target 2, the bag 3 and on.
#[test]
fn tells_a_missing_issuer(rt: HostRuntime) {
    let [root, _, _] = certificates();
    let (answer, written) = why(rt.alloc(), &[root], &good(), LIMITS);
    assert!(rt; answer == end(0, 0, 0));
    assert!(rt; written.above == [9, 9] && written.anchors == [9, 9]);
    assert!(rt; written.obstacles == [obstacle(9, 9); 2]);
}

/// The first of the good signatures is that of the issuer's certificate, and the second that of the leaf.
#[test]
fn tells_bad_signatures(rt: HostRuntime) {
    let [root, middle, _] = certificates();
    let (answer, written) = why(rt.alloc(), &[root, middle], &good()[..1], LIMITS);
    assert!(rt; answer == end(0, 0, 1));
    assert!(rt; written.obstacles == [obstacle(4, 2), obstacle(9, 9)]);
    let (answer, written) = why(rt.alloc(), &[root, middle], &good()[1..2], LIMITS);
    assert!(rt; answer == end(1, 1, 1));
    assert!(rt; written.above == [4, 9] && written.anchors == [1, 9]);
    assert!(rt; written.obstacles == [obstacle(3, 2), obstacle(9, 9)]);
}

#[test]
fn tells_used_up_limits(rt: HostRuntime) {
    let [root, middle, _] = certificates();
    let (answer, written) = why(rt.alloc(), &[root, middle], &good(), Limits::default());
    let used_up = WhyNotAnswer {
        why: 7,
        ..WhyNotAnswer::default()
    };
    assert!(rt; answer == used_up && written.above == [9, 9]);
}

#[test]
fn tells_what_is_wrong_with_the_target(rt: HostRuntime) {
    let [root, middle, leaf] = certificates();
    let (anchors, bag) = ([root], [middle]);
    let search = search(&anchors, leaf, &bag, LIMITS);
    let rows: [(SearchOfTexts<'_>, u32); 2] = [
        (
            SearchOfTexts {
                purpose: text(CLIENT),
                ..search
            },
            14,
        ),
        (
            SearchOfTexts {
                moment: 0,
                ..search
            },
            3,
        ),
    ];
    for (search, reason) in rows {
        let answer = x509check_why_not(rt.alloc(), &search, &good(), &mut [], &mut [], &mut []);
        let target = WhyNotAnswer {
            why: 8,
            reason,
            ..WhyNotAnswer::default()
        };
        assert!(rt; answer == target);
    }
}

#[test]
fn refuses_certificates_of_a_bag(rt: HostRuntime) {
    let [_, middle, _] = certificates();
    let (answer, written) = why(rt.alloc(), &[middle, text(b"")], &good(), LIMITS);
    let refused = WhyNotAnswer {
        why: 5,
        refusal: refusal(1, 21, 4, 4, 0),
        ..WhyNotAnswer::default()
    };
    assert!(rt; answer == refused && written.obstacles == [obstacle(9, 9); 2]);
}

#[test]
fn telling_why_wants_memory_or_answers(rt: HostRuntime) {
    let (answer, _) = why(rt.alloc(), &[], &good(), LIMITS);
    assert!(rt; answer == end(0, 0, 0) || answer.refusal == refusal(0, 33, 0, 0, 0));
}
