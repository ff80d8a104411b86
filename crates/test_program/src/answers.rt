//! Lines and their answers.

use crate::keeping::{ends, obliging};
use cli_steps::End;
use std::alloc::Global;
use std::process::Abort;

/// Lines, and the answers to them.
const ROWS: &[(&str, &str)] = &[
    ("", ""),
    ("\n# nothing\n\n", ""),
    ("forget\nforget", "0 forgotten\n0 forgotten\n"),
    ("quit\nforget\n", "0 ended\n"),
    ("forgets\nforget\n", "5 bad line\n0 forgotten\n"),
    ("believe 00\n", "5 bad line\n"),
    (
        "believe 000102030405060708090a0b0c0d0e0f101112131415161718191A1B1C1D1E1F\n",
        "0 believed\n",
    ),
    ("deliver no_issuer hex:00\n", "6 cannot read no_issuer\n"),
    (
        "deliver no\\20issuer hex:\n",
        "6 cannot read no\\20issuer\n",
    ),
    (
        "deliver hex:0500 a\n",
        "4 hex:0500: refused 22 Layout at 0\n",
    ),
    (
        "deliver hex:3003 a\n",
        "4 hex:3003: refused 4 Truncated at 0\n",
    ),
    ("check 20251301000000Z a b\n", "5 bad time\n"),
    ("check 20250615000000Z purpose=1 a b\n", "5 bad purpose\n"),
    (
        "check 20250615000000Z purpose=1.2 a b\n",
        "6 cannot read a\n",
    ),
    (
        "check 20250615000000Z purpose=1.2 policy=1.2 policy=1 a b\n",
        "5 bad policy 1\n",
    ),
    (
        "check 20250615000000Z purpose=1 policy=1 a b\n",
        "5 bad purpose\n",
    ),
    (
        "check 20250615000000Z policy=1.2 require-policy a b\n",
        "6 cannot read a\n",
    ),
    (
        "check 20250615000000Z policy=1.2 inhibit-mapping require-policy b\n",
        "6 cannot read require-policy\n",
    ),
    (
        "check 20250615000000Z require-policy policy=1.2\n",
        "6 cannot read require-policy\n",
    ),
    (
        "check 20250615000000Z hex:0500 b\n",
        "4 hex:0500: refused 22 Layout at 0\n",
    ),
    ("find 20251301000000Z a b\n", "5 bad time\n"),
    (
        "find 20250615000000Z purpose=1.2 name=a@ a b\n",
        "5 bad name at 2\n",
    ),
    ("find 20250615000000Z name=a\\40 a b\n", "5 bad name at 2\n"),
    ("find 20250615000000Z name=a a b c\n", "6 cannot read c\n"),
    ("find 20250615000000Z b\n", "5 bad line\n"),
    ("find 20250615000000Z a b c d\n", "5 bad line\n"),
    ("prints search a b\n", "6 cannot read b\n"),
    (
        "prints parts search a b hex:0500\n",
        "4 hex:0500: refused 22 Layout at 0\n",
    ),
    ("prints cert a b\n", "6 cannot read a\n"),
    (
        "prints crl hex:0500 b\n",
        "4 hex:0500: refused 22 Layout at 0\n",
    ),
    ("list\nlist 20250615000000Z\n", "0 0\n0 0\n"),
    ("list 20251301000000Z\n", "5 bad time\n"),
    ("list a b\n", "5 bad line\n"),
];

/// What a session writes that reads these lines, over a keeper that answers.
fn said(alloc: Global, lines: &[u8]) -> (Vec<u8>, End) {
    let mut out = Vec::new(alloc);
    let mut input = lines;
    let end = ends(alloc, obliging(), &mut input, &mut out);
    (out, end)
}

fn is_answered(rt: &impl Abort, alloc: Global, lines: &str, answers: &str) {
    let (out, end) = said(alloc, lines.as_bytes());
    assert!(rt; out.as_slice() == answers.as_bytes(), "{lines}");
    let quits = answers == "0 ended\n";
    assert!(rt;
        end == if quits { End::Quit } else { End::Finished },
        "{lines}"
    );
}

#[test]
fn answers_lines(rt: HostRuntime) {
    for (lines, answers) in ROWS.iter() {
        is_answered(&rt, rt.alloc(), lines, answers);
    }
}

/// What a session may answer if a request for memory is refused.
const WITHOUT_MEMORY: &[&str] = &[
    "0 forgotten\n4 hex:0500: refused 22 Layout at 0\n",
    "6 no memory\n4 hex:0500: refused 22 Layout at 0\n",
    "0 forgotten\n6 no memory\n",
];

/// Holds whether an allocation is refused or not: `rt try --test --fail-alloc N` refuses the Nth.
#[test]
fn wants_memory_or_answers(rt: HostRuntime) {
    let (out, end) = said(rt.alloc(), b"forget\ndeliver hex:0500 a\n");
    let text = out.as_slice();
    let mut is_one = end != End::Finished;
    for answers in WITHOUT_MEMORY {
        is_one = is_one || text == answers.as_bytes();
    }
    assert!(rt; is_one);
}
