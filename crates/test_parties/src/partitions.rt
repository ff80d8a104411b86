//! An authority that publishes its list in two parts, at two points, and parties of the wide profile.

use crate::telling::{Judged, Told, told_and_asked};
use relying::DeliverAnswer;
use relying::Verdict::{Revoked, Unknown, Valid};
use statements_facts::{Counts, Profile};
use std::alloc::Global;
use vectors::{CRL_ISSUER, KEY_COMPROMISE};

const STORED: DeliverAnswer = Ok(Counts {
    stored: 1,
    kept: 0,
    contradicted: 0,
});

/// A list at two points, of which there is one fact a name.
const STORED_TWICE: DeliverAnswer = Ok(Counts {
    stored: 2,
    kept: 0,
    contradicted: 0,
});

const STORED_ONCE: DeliverAnswer = Ok(Counts {
    stored: 1,
    kept: 1,
    contradicted: 0,
});

const KEPT: DeliverAnswer = Ok(Counts {
    stored: 0,
    kept: 1,
    contradicted: 0,
});

const CONTRADICTED: DeliverAnswer = Ok(Counts {
    stored: 0,
    kept: 0,
    contradicted: 1,
});

/// The lists that a party is given, its answers to them, and its verdicts afterwards.
type Row = (&'static [Told], &'static [DeliverAnswer], &'static [Judged]);

const FIRST: &[&str] = &["http://a/1"];

const SECOND: &[&str] = &["http://a/2"];

const BOTH: &[&str] = &["http://a/1", "http://a/2"];

/// The first with reasons, and the second with a cRLIssuer.
const FOR_A_REASON: &[&str] = &["http://a/1", KEY_COMPROMISE];

const OF_ANOTHER: &[&str] = &["http://a/2", CRL_ISSUER];

const ROWS: &[Row] = &[
    // nothing is known before a list comes
    (&[], &[], &[(&[FIRST], Unknown(1)), (&[], Unknown(1))]),
    // a list with a point covers the certificates that name this point
    (
        &[Some(("crl(R,5)", 0, FIRST))],
        &[STORED],
        &[
            (&[FIRST], Valid),
            (&[SECOND], Unknown(1)),
            (&[FIRST, SECOND], Valid),
            (&[BOTH], Valid),
            (&[], Unknown(1)),
        ],
    ),
    // each part revokes its own
    (
        &[
            Some(("crl(R,5)", 0, FIRST)),
            Some(("crl(R,5,[05 1])", 0, SECOND)),
        ],
        &[STORED, STORED],
        &[
            (&[FIRST], Valid),
            (&[SECOND], Revoked(1, 1)),
            (&[FIRST, SECOND], Revoked(1, 1)),
            (&[BOTH], Revoked(1, 1)),
            (&[], Unknown(1)),
        ],
    ),
    // a newer list of the other part changes nothing, before a restart and behind it
    (
        &[
            Some(("crl(R,5,[05 1])", 0, FIRST)),
            Some(("crl(R,9)", 0, SECOND)),
        ],
        &[STORED, STORED],
        &[(&[FIRST], Revoked(1, 1)), (&[SECOND], Valid)],
    ),
    (
        &[
            Some(("crl(R,9,[05 1])", 0, SECOND)),
            None,
            Some(("crl(R,5)", 0, FIRST)),
            None,
        ],
        &[STORED, STORED],
        &[(&[FIRST], Valid), (&[SECOND], Revoked(1, 1))],
    ),
    // an older one of the same part is kept out, and so is the same; another of the same number contradicts
    (
        &[
            Some(("crl(R,5)", 0, FIRST)),
            Some(("crl(R,4,[05 1])", 0, FIRST)),
            Some(("crl(R,5)", 0, FIRST)),
            Some(("crl(R,5,[05 1])", 0, FIRST)),
        ],
        &[STORED, KEPT, KEPT, CONTRADICTED],
        &[(&[FIRST], Valid)],
    ),
    (
        &[
            Some(("crl(R,5)", 0, FIRST)),
            None,
            Some(("crl(R,4,[05 1])", 0, FIRST)),
            None,
            Some(("crl(R,6,[05 3])", 0, FIRST)),
            None,
        ],
        &[STORED, KEPT, STORED],
        &[(&[FIRST], Revoked(1, 3))],
    ),
    // a list at both points is one of each part
    (
        &[
            Some(("crl(R,5,[05 1])", 0, BOTH)),
            Some(("crl(R,6)", 0, SECOND)),
        ],
        &[STORED_TWICE, STORED],
        &[
            (&[FIRST], Revoked(1, 1)),
            (&[SECOND], Valid),
            (&[BOTH], Revoked(1, 1)),
        ],
    ),
    (
        &[
            Some(("crl(R,6)", 0, SECOND)),
            None,
            Some(("crl(R,5,[05 1])", 0, BOTH)),
        ],
        &[STORED, STORED_ONCE],
        &[(&[FIRST], Revoked(1, 1)), (&[SECOND], Valid)],
    ),
    // a list of all certificates stands beside those of the parts
    (
        &[
            Some(("crl(R,5)", 0, &[])),
            Some(("crl(R,4,[05 1])", 0, FIRST)),
        ],
        &[STORED, STORED],
        &[(&[], Valid), (&[FIRST], Revoked(1, 1)), (&[SECOND], Valid)],
    ),
    // a part may be of users' certificates or of those of authorities alone
    (
        &[
            Some(("crl(R,5,[05 1])", 0x82, FIRST)),
            Some(("crl(R,4)", 0x81, FIRST)),
        ],
        &[STORED, STORED],
        &[(&[FIRST], Valid)],
    ),
    // what the list of a point with reasons or a cRLIssuer revokes is revoked, but such a list does not cover, before a restart and behind it
    (
        &[
            Some(("crl(R,5)", 0, FIRST)),
            None,
            Some(("crl(R,5,[05 3])", 0, SECOND)),
        ],
        &[STORED, STORED],
        &[
            (&[FOR_A_REASON], Unknown(1)),
            (&[OF_ANOTHER], Revoked(1, 3)),
            (&[FIRST, OF_ANOTHER], Revoked(1, 3)),
            (&[FOR_A_REASON, FIRST], Valid),
        ],
    ),
    (
        &[
            Some(("crl(R,5)", 0, &[])),
            Some(("crl(R,4,[05 1])", 0, FIRST)),
            None,
        ],
        &[STORED, STORED],
        &[
            (&[], Valid),
            (&[FOR_A_REASON], Revoked(1, 1)),
            (&[OF_ANOTHER], Valid),
            (&[OF_ANOTHER, FOR_A_REASON], Revoked(1, 1)),
        ],
    ),
];

fn holds(alloc: Global, row: &Row) -> bool {
    let (told, wanted, judged) = *row;
    match told_and_asked(alloc, Profile::Wide, told, judged) {
        Some((answers, says)) => says && answers.as_slice() == wanted,
        None => false,
    }
}

#[test]
fn lists_of_parts_in_turn(rt: HostRuntime) {
    for (index, row) in ROWS.iter().enumerate() {
        assert!(rt; holds(rt.alloc(), row), "row {index}");
    }
}
