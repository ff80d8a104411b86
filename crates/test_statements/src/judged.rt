//! Which signatures verifiers accept.

use crate::rows::ROWS;
use crate::{holds, read_certificate};
use cert::Certificate;
use path_verifiers::{ListVerifier, Verifier, fingerprint};
use std::alloc::Global;
use std::test::Fail;
use vectors::{ToyVerifier, certificate, key_info};

/// The toy signature is accepted, whatever the algorithm, and not under another key, of another message, nor another signature.
fn is_signed_by(read: &Certificate<'_>, key: &[u8], other: &[u8]) -> bool {
    let (algorithm, message) = (read.algorithm.value.whole, read.tbs.whole);
    let signature = read.signature.octets();
    ToyVerifier.judge(algorithm, key, message, signature)
        && ToyVerifier.judge(b"", key, message, signature)
        && !ToyVerifier.judge(algorithm, other, message, signature)
        && !ToyVerifier.judge(algorithm, key, read.octets, signature)
        && !ToyVerifier.judge(algorithm, key, message, b"")
}

#[test]
fn accepts_toy_signatures(rt: HostRuntime) -> Result<(), Fail> {
    let alloc = rt.alloc();
    let other = key_info(alloc, "other")?;
    for (text, signer, is_read, _) in ROWS.iter() {
        if !*is_read {
            continue;
        }
        let octets = certificate(alloc, text)?;
        let read = read_certificate(alloc, &octets)?;
        let key = key_info(alloc, signer)?;
        assert!(rt; is_signed_by(&read, &key, &other), "{text}");
    }
    Ok(())
}

/// Whether the verifier accepts the signature of the certificate under the key.
fn accepts<V: Verifier>(alloc: Global, verifier: &V, text: &str, key: &str) -> Result<bool, Fail> {
    let octets = certificate(alloc, text)?;
    let read = read_certificate(alloc, &octets)?;
    let key = key_info(alloc, key)?;
    let (algorithm, message) = (read.algorithm.value.whole, read.tbs.whole);
    Ok(verifier.judge(algorithm, &key, message, read.signature.octets()))
}

/// The fingerprint of the signature of `ee(T,R)`, which an independent script gives.
const PRINT: &str = "5e93a427fe05c909221e49838e3521b357219976e9604e741ab17b004303fda5";

#[test]
fn believes_a_list(rt: HostRuntime) -> Result<(), Fail> {
    let alloc = rt.alloc();
    let octets = certificate(alloc, "ee(T,R)")?;
    let read = read_certificate(alloc, &octets)?;
    let root = certificate(alloc, "ca(R,R)")?;
    let issuer = read_certificate(alloc, &root)?;
    let key = issuer.subject_public_key_info.value.whole;
    let (algorithm, message) = (read.algorithm.value.whole, read.tbs.whole);
    let print = fingerprint(algorithm, key, message, read.signature.octets());
    let printed = hex::encode(alloc, print.as_slice())?;
    holds(&rt, printed.as_str() == PRINT, "the fingerprint");
    let verifier = ListVerifier::new(vec![in alloc; print]?);
    holds(&rt, accepts(alloc, &verifier, "ee(T,R)", "R")?, "listed");
    holds(
        &rt,
        !accepts(alloc, &verifier, "ee(U,R)", "R")?,
        "another certificate",
    );
    holds(
        &rt,
        !accepts(alloc, &verifier, "ee(T,R)", "U")?,
        "another key",
    );
    holds(
        &rt,
        accepts(alloc, &ToyVerifier, "ee(U,R)", "R")?,
        "another verifier",
    );
    Ok(())
}
