//! A certificate of 60 kilobytes, and a list of 2 megabytes.

use crate::stores::answers_to;
use relying::Event;
use statements_facts::Counts;
use std::alloc::Global;
use vectors::{certificate, revocation_list};

const SUBTREES: u32 = 4_000;

const LISTED: u32 = 40_000;

/// A certificate with so many permitted subtrees.
fn issuer(alloc: Global) -> Option<Vec<u8>> {
    let mut text = String::from_str(alloc, "ca(R,R)").ok()?;
    for subtree in 0..SUBTREES {
        let option = format!(in alloc; "{{permit dns s{subtree}.example}}").ok()?;
        text.push_str(option.as_str()).ok()?;
    }
    certificate(alloc, text.as_str()).ok()
}

/// A list of so many serial numbers of 20 octets, each with a reason.
fn list(alloc: Global) -> Option<Vec<u8>> {
    let mut text = String::from_str(alloc, "crl(R,5,").ok()?;
    for index in 0..LISTED {
        let entry = format!(in alloc; "[40000000000000000000000000000000{index:08} 1]").ok()?;
        text.push_str(entry.as_str()).ok()?;
    }
    text.push_str(")").ok()?;
    revocation_list(alloc, text.as_str()).ok()
}

/// What a delivery of them counts.
fn counts(alloc: Global, issuer: &[u8], list: &[u8]) -> Option<Counts> {
    let answers = answers_to(alloc, &[Event::Deliver(issuer, list)])?;
    answers.first().and_then(|answer| answer.ok())
}

/// Whether certificate and list are as large as wanted, and what a delivery of them counts.
fn delivered(alloc: Global) -> Option<(bool, Option<Counts>)> {
    let issuer = issuer(alloc)?;
    let list = list(alloc)?;
    let are_large = issuer.len() >= 60_000 && list.len() >= 2_000_000;
    Some((are_large, counts(alloc, &issuer, &list)))
}

#[test]
fn a_large_certificate_and_a_large_list(rt: HostRuntime) {
    let stored = Counts {
        stored: 1,
        kept: 0,
        contradicted: 0,
    };
    assert_eq!(rt; delivered(rt.alloc()), Some((true, Some(stored))));
}
