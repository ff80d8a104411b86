//! Authorities above the end of a path.

use crate::building::{MIDDLE, PathFault, certificates_of, octets_of};
use cert::Certificate;
use path_search::{Authority, Options, Tail, is_right_as_target};
use std::alloc::Global;
use std::test::Fail;
use vectors::ToyVerifier;

/// Whether the first certificate is right above the second and the third, of which that is the target.
fn is_right_above_two(alloc: Global, certificates: &[Certificate<'_>]) -> Result<bool, PathFault> {
    let [first, _, target] = certificates else {
        return Err(PathFault::Text(0));
    };
    let authority = Authority::new(alloc, first)?;
    let tail = Tail {
        bag: certificates,
        target,
        above: &[1],
    };
    let options = Options::stated();
    Ok(
        authority.is_right_above(&ToyVerifier, MIDDLE, &tail, options)
            && is_right_as_target(target, MIDDLE, None, options),
    )
}

/// The same of the texts of the certificates.
fn is_right_above_texts(alloc: Global, texts: &[&str]) -> Result<bool, PathFault> {
    let all = octets_of(alloc, texts)?;
    let certificates = certificates_of(alloc, &all)?;
    is_right_above_two(alloc, &certificates)
}

const ROWS: &[(&str, &[&str], bool)] = &[
    ("right", &["ca(A,R)", "ca(B,A)", "ee(T,B)"], true),
    ("another issuer", &["ca(A,R)", "ca(B,X)", "ee(T,B)"], false),
    (
        "another signer",
        &["ca(A,R)", "ca(B,A){signed X}", "ee(T,B)"],
        false,
    ),
    ("no authority", &["ee(A,R)", "ca(B,A)", "ee(T,B)"], false),
    ("repeated", &["ca(A,A)", "ca(A,A)", "ee(T,A)"], false),
    (
        "within the path length",
        &["ca(A,R){pathlen 1}", "ca(B,A)", "ee(T,B)"],
        true,
    ),
    (
        "past the path length",
        &["ca(A,R){pathlen 0}", "ca(B,A)", "ee(T,B)"],
        false,
    ),
    (
        "self-issued within the path length",
        &["ca(A,R){pathlen 0}", "ca(A,A){key A2}{signed A}", "ee(T,A)"],
        true,
    ),
    (
        "permitted",
        &[
            "ca(A,R){permit dns example}",
            "ca(B,A)",
            "ee(T,B){dns x.example}",
        ],
        true,
    ),
    (
        "not permitted",
        &[
            "ca(A,R){permit dns example}",
            "ca(B,A)",
            "ee(T,B){dns x.org}",
        ],
        false,
    ),
    (
        "excluded",
        &[
            "ca(A,R){exclude dns example}",
            "ca(B,A)",
            "ee(T,B){dns x.example}",
        ],
        false,
    ),
];

#[test]
fn authorities_are_right_above_a_tail_or_not(rt: HostRuntime) -> Result<(), Fail> {
    for (name, texts, wanted) in ROWS.iter() {
        assert_eq!(rt;
            is_right_above_texts(rt.alloc(), texts),
            Ok(*wanted),
            "{name}"
        );
    }
    Ok(())
}
