//! Long paths, and many subtrees.

use crate::building::{MIDDLE, PathFault, certificates_of, octets_of};
use path::Outcome::{Bad, Good};
use path::{Outcome, Reason, validate};
use std::alloc::Global;
use std::test::Fail;
use vectors::{ToyVerifier, certificate};

/// The octets of one certificate that a text asks for.
fn octets_of_text(alloc: Global, text: &str) -> Result<Vec<u8>, PathFault> {
    match certificate(alloc, text) {
        Ok(octets) => Ok(octets),
        Err(_) => Err(PathFault::Text(0)),
    }
}

/// The certificate behind so many others in a path of this length.
fn link_of(alloc: Global, behind: u32, length: u32) -> Result<Vec<u8>, PathFault> {
    if behind == 0 {
        return octets_of_text(alloc, "ca(1,R)");
    }
    let number = behind.saturating_add(1);
    let text = if number < length {
        format!(in alloc; "ca({number},{behind})")?
    } else {
        format!(in alloc; "ee({number},{behind})")?
    };
    octets_of_text(alloc, text.as_str())
}

/// What validation answers of a path of so many certificates.
fn outcome_of_chain(alloc: Global, length: u32) -> Result<Outcome, PathFault> {
    let mut all = Vec::new(alloc);
    for behind in 0..length {
        all.push(link_of(alloc, behind, length)?)?;
    }
    let path = certificates_of(alloc, &all)?;
    let roots = octets_of(alloc, &["ca(R,R)"])?;
    let anchors = certificates_of(alloc, &roots)?;
    match anchors.first() {
        None => Err(PathFault::Text(0)),
        Some(anchor) => Ok(validate(alloc, &ToyVerifier, anchor, &path, MIDDLE, None)?),
    }
}

#[test]
fn serves_paths_of_128_certificates(rt: HostRuntime) -> Result<(), Fail> {
    let longest = outcome_of_chain(rt.alloc(), 128);
    assert_eq!(rt; longest, Ok(Good));
    let longer = outcome_of_chain(rt.alloc(), 129);
    assert_eq!(rt; longer, Ok(Bad(0, Reason::TooLong)));
    Ok(())
}

/// A certificate behind so many others, with so many permitted subtrees, the same in each.
fn constrained_link_of(alloc: Global, behind: u32, subtrees: u32) -> Result<Vec<u8>, PathFault> {
    let number = behind.saturating_add(1);
    let mut text = if behind == 0 {
        format!(in alloc; "ca(1,R)")?
    } else {
        format!(in alloc; "ca({number},{behind})")?
    };
    for subtree in 0..subtrees {
        let option = format!(in alloc; "{{permit dns s{subtree}.example}}")?;
        text.push_str(option.as_str())?;
    }
    octets_of_text(alloc, text.as_str())
}

/// What validation answers of a path of so many certificates, all but the last with so many subtrees.
fn outcome_of_constrained_chain(
    alloc: Global,
    length: u32,
    subtrees: u32,
    name: &str,
) -> Result<Outcome, PathFault> {
    let mut all = octets_of(alloc, &["ca(R,R)"])?;
    let last = length.saturating_sub(1);
    for behind in 0..last {
        all.push(constrained_link_of(alloc, behind, subtrees)?)?;
    }
    let text = format!(in alloc; "ee({length},{last}){{dns {name}}}")?;
    all.push(octets_of_text(alloc, text.as_str())?)?;
    let certificates = certificates_of(alloc, &all)?;
    match certificates.as_slice() {
        [anchor, path @ ..] => Ok(validate(alloc, &ToyVerifier, anchor, path, MIDDLE, None)?),
        [] => Err(PathFault::Text(0)),
    }
}

/// Certificates, subtrees in each but the last, a name of the last, and the answer.
const CHAINS: &[(u32, u32, &str, Outcome)] = &[
    (64, 64, "x.s63.example", Good),
    (64, 64, "x.s64.example", Bad(64, Reason::NotPermitted)),
    (4, 4096, "x.s4095.example", Good),
    (4, 4096, "example", Bad(4, Reason::NotPermitted)),
];

#[test]
fn narrows_many_subtrees(rt: HostRuntime) -> Result<(), Fail> {
    for (length, subtrees, name, wanted) in CHAINS.iter() {
        let outcome = outcome_of_constrained_chain(rt.alloc(), *length, *subtrees, name);
        assert!(rt; outcome == Ok(*wanted), "{length} certificates, {name}");
    }
    Ok(())
}
