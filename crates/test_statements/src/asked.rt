//! How often a verifier is asked about a statement. No clause counts that: a verifier answers one question always alike.

use crate::read_certificate;
use path_verifiers::Verifier;
use statements::genuine;
use std::alloc::Global;
use std::cell::Cell;
use std::test::Fail;
use vectors::{ToyVerifier, certificate, revocation_list};
use vectors_ocsp::ocsp_response;

/// Judges as the other does, and counts what it is asked.
#[derive(Drop)]
struct Counting<V> {
    judge: V,
    asked: Cell<u32>,
}

impl<V: Verifier> Verifier for Counting<V> {
    ghost accepts = { λ counting. V.accepts counting.judge };

    fn judge(&self, algorithm: &[u8], key_info: &[u8], message: &[u8], signature: &[u8]) -> bool {
        self.asked.set(self.asked.get().saturating_add(1));
        self.judge.judge(algorithm, key_info, message, signature)
    }
}

/// How often a verifier is asked about the statement, under the issuer.
fn questions_about(alloc: Global, issuer: &str, statement: &[u8]) -> Result<u32, Fail> {
    let octets = certificate(alloc, issuer)?;
    let issuer = read_certificate(alloc, &octets)?;
    let verifier = Counting {
        judge: ToyVerifier,
        asked: Cell::new(0),
    };
    let _facts = genuine(alloc, &verifier, &issuer, statement);
    Ok(verifier.asked.get())
}

/// A list, and how often a verifier is asked about it under `ca(R,R)`. It is never asked about a list that names another issuer.
const LISTS: &[(&str, u32)] = &[
    ("crl(R,5)", 1),
    ("crl(R,5){signed X}", 1),
    ("crl(X,5)", 0),
    ("crl(X,5){signed R}", 0),
];

#[test]
fn lists_of_other_issuers_are_not_asked_about(rt: HostRuntime) -> Result<(), Fail> {
    for (list, wanted) in LISTS.iter() {
        let octets = revocation_list(rt.alloc(), list)?;
        let asked = questions_about(rt.alloc(), "ca(R,R)", &octets)?;
        assert_eq!(rt; asked, *wanted, "{list}");
    }
    Ok(())
}

const BY_ISSUER: &str = "ocsp(R,05 good)";

const BY_NAME: &str = "ocsp(R,05 good){by D}{signed D}";

const BY_KEY: &str = "ocsp(R,05 good){bykey D}{signed D}";

const DELEGATE: &str = "ee(D,R){purpose 1.3.6.1.5.5.7.3.9}{nocheck}";

/// A response, the certificates that come with it, and how often a verifier is asked about it under `ca(R,R)`: once about each certificate
/// that the responder id names, if `ca(R,R)` is its issuer, and once about the response under each key that may have signed it.
const RESPONSES: &[(&str, &[&str], u32)] = &[
    (BY_ISSUER, &[], 1),
    (BY_ISSUER, &[DELEGATE], 1),
    ("ocsp(R,05 good){signed X}", &[], 1),
    ("ocsp(R,05 good){by X}", &[], 0),
    ("ocsp(R,05 good){bykey X}", &[], 0),
    (BY_NAME, &[], 0),
    (BY_NAME, &[DELEGATE], 2),
    (BY_KEY, &[DELEGATE], 2),
    (
        BY_NAME,
        &["ee(E,R){purpose 1.3.6.1.5.5.7.3.9}{nocheck}", DELEGATE],
        2,
    ),
    (
        BY_KEY,
        &["ee(E,R){purpose 1.3.6.1.5.5.7.3.9}{nocheck}", DELEGATE],
        2,
    ),
    (
        BY_NAME,
        &["ee(E,R){key D}{purpose 1.3.6.1.5.5.7.3.9}{nocheck}"],
        0,
    ),
    (
        BY_NAME,
        &["ee(D,X){signed R}{purpose 1.3.6.1.5.5.7.3.9}{nocheck}"],
        0,
    ),
    (
        BY_KEY,
        &[
            "ee(D,X){signed R}{purpose 1.3.6.1.5.5.7.3.9}{nocheck}",
            DELEGATE,
        ],
        2,
    ),
];

#[test]
fn only_certificates_that_may_be_delegates_are_asked_about(rt: HostRuntime) -> Result<(), Fail> {
    for (response, certificates, wanted) in RESPONSES.iter() {
        let octets = ocsp_response(rt.alloc(), response, certificates)?;
        let asked = questions_about(rt.alloc(), "ca(R,R)", &octets)?;
        assert_eq!(rt; asked, *wanted, "{response} {certificates:?}");
    }
    Ok(())
}
