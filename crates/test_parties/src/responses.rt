//! Responses by SHA-1 and by SHA-256 (RFC 6960, 4.1.1) that reach a party.

use crate::telling::delivered_and_asked;
use relying::Verdict;
use relying::Verdict::{Revoked, Unknown, Valid};
use statements_facts::Profile;
use statements_facts::Profile::{Stated, Wide};
use std::alloc::Global;
use vectors_ocsp::ocsp_response;

/// The profile of a party, the responses of the authority R that reach it in turn, and its verdict on R's certificate with the serial
/// number 05.
type Row = (Profile, &'static [&'static str], Verdict);

/// The points of that certificate.
const NO_POINTS: &[&[&str]] = &[];

const ROWS: &[Row] = &[
    (Wide, &["ocsp(R,05 good)"], Valid),
    (Wide, &["ocsp(R,#05 good)"], Valid),
    (Wide, &["ocsp(R,#05 revoked 1)"], Revoked(1, 1)),
    (Stated, &["ocsp(R,#05 good)"], Unknown(1)),
    (Stated, &["ocsp(R,#05 revoked 1)"], Unknown(1)),
    // the newest counts, by whichever hash
    (
        Wide,
        &[
            "ocsp(R,05 revoked 6)",
            "ocsp(R,#05 good){from 20250602000000Z}",
        ],
        Valid,
    ),
    (
        Wide,
        &[
            "ocsp(R,#05 good){from 20250602000000Z}",
            "ocsp(R,05 revoked 6)",
        ],
        Valid,
    ),
    (
        Wide,
        &[
            "ocsp(R,#05 revoked 6)",
            "ocsp(R,05 good){produced 20250602000000Z}",
        ],
        Valid,
    ),
    (
        Wide,
        &[
            "ocsp(R,05 good)",
            "ocsp(R,#05 revoked 1){from 20250602000000Z}",
        ],
        Revoked(1, 1),
    ),
    // of one time the first
    (Wide, &["ocsp(R,05 good)", "ocsp(R,#05 revoked 1)"], Valid),
    (Wide, &["ocsp(R,#05 revoked 1,05 good)"], Revoked(1, 1)),
    // in the stated profile those by SHA-1 alone
    (Stated, &["ocsp(R,#05 revoked 1,05 good)"], Valid),
    (
        Stated,
        &[
            "ocsp(R,05 good)",
            "ocsp(R,#05 revoked 1){from 20250602000000Z}",
        ],
        Valid,
    ),
    // of another certificate, of an issuer of another name or key
    (Wide, &["ocsp(R,#06 good)"], Unknown(1)),
    (Wide, &["ocsp(R,#05 good){named Q}"], Unknown(1)),
    (Wide, &["ocsp(R,#05 good){key Q}"], Unknown(1)),
    (Wide, &["ocsp(R,05 good){named Q}"], Unknown(1)),
    // until when it counts
    (
        Wide,
        &["ocsp(R,#05 good){until 20250614000000Z}"],
        Unknown(1),
    ),
];

fn holds(alloc: Global, row: &Row) -> Option<bool> {
    let (profile, responses, verdict) = *row;
    let mut statements = Vec::new(alloc);
    for text in responses {
        statements.push(ocsp_response(alloc, text, &[]).ok()?).ok()?;
    }
    let (_answers, says) = delivered_and_asked(
        alloc,
        profile,
        &statements,
        &[(NO_POINTS, verdict)],
    )?;
    Some(says)
}

#[test]
fn responses_count_by_either_hash(rt: HostRuntime) {
    for (index, row) in ROWS.iter().enumerate() {
        assert_eq!(rt; holds(rt.alloc(), row), Some(true), "row {index}");
    }
}
