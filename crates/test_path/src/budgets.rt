//! Bags that were made to be hard, and what a search may spend.

use crate::finding::{SearchFault, explained_among, found_among, octets_of};
use path_search::Budget;
use std::alloc::Global;
use std::test::Fail;
use vectors::certificate;

/// The certificates that so many authorities issued for each other, each for each other one.
fn mesh_of(alloc: Global, count: u32) -> Result<Vec<Vec<u8>>, SearchFault> {
    let mut all = Vec::new(alloc);
    for issuer in 0..count {
        for subject in 0..count {
            if subject != issuer {
                let text = format!(in alloc; "ca({subject},{issuer})")?;
                all.push(certificate(alloc, text.as_str())?)?;
            }
        }
    }
    Ok(all)
}

/// The search in a mesh of ten, with one certificate more, for a target that one of them issued.
fn found_in_mesh(alloc: Global, further: &str, budget: Budget) -> Result<String, SearchFault> {
    let anchors = octets_of(alloc, "ca(R,R)")?;
    let mut bag = mesh_of(alloc, 10)?;
    for octets in octets_of(alloc, further)? {
        bag.push(octets)?;
    }
    let target = certificate(alloc, "ee(T,9)")?;
    found_among(alloc, anchors, bag, target, budget)
}

const SMALL: Budget = Budget {
    signatures: 1_000,
    steps: 1_000,
};

#[test]
fn ten_that_issued_each_other(rt: HostRuntime) -> Result<(), Fail> {
    let below_no_anchor = found_in_mesh(rt.alloc(), "", SMALL).map_err(|_| "an answer")?;
    assert_eq!(rt; below_no_anchor.as_str(), "none");
    let below_one = found_in_mesh(rt.alloc(), "ca(0,R)", SMALL).map_err(|_| "an answer")?;
    assert_eq!(rt; below_one.as_str(), "0 : 8 90");
    let too_long = found_in_mesh(rt.alloc(), "ca(0,R){pathlen 0}", SMALL).map_err(|_| "an answer")?;
    assert_eq!(rt; too_long.as_str(), "gave up");
    Ok(())
}

/// A chain of so many authorities, the lowest one first.
fn chain_of(alloc: Global, count: u32) -> Result<Vec<Vec<u8>>, SearchFault> {
    let mut all = Vec::new(alloc);
    for number in 0..count {
        let text = format!(in alloc; "ca({number},{})", number.saturating_add(1))?;
        all.push(certificate(alloc, text.as_str())?)?;
    }
    Ok(all)
}

/// The search in a chain, for a target that the lowest one issued: how many words the answer has.
fn words_of_chain(alloc: Global, count: u32) -> Result<usize, SearchFault> {
    let root = format!(in alloc; "ca({count},{count})")?;
    let anchors = octets_of(alloc, root.as_str())?;
    let bag = chain_of(alloc, count)?;
    let target = certificate(alloc, "ee(T,0)")?;
    let found = found_among(alloc, anchors, bag, target, SMALL)?;
    Ok(found.split(' ').count())
}

#[test]
fn paths_of_128_certificates_are_found(rt: HostRuntime) -> Result<(), Fail> {
    let longest = words_of_chain(rt.alloc(), 127).map_err(|_| "an answer")?;
    assert_eq!(rt; longest, 129);
    let longer = words_of_chain(rt.alloc(), 128).map_err(|_| "an answer")?;
    assert_eq!(rt; longer, 1);
    Ok(())
}

/// Why the search in the chain finds nothing.
fn why_in_chain(alloc: Global, count: u32, budget: Budget) -> Result<String, SearchFault> {
    let root = format!(in alloc; "ca({count},{count})")?;
    let anchors = octets_of(alloc, root.as_str())?;
    let bag = chain_of(alloc, count)?;
    let target = certificate(alloc, "ee(T,0)")?;
    explained_among(alloc, anchors, bag, target, None, budget)
}

#[test]
fn the_certificate_that_is_too_many_is_told(rt: HostRuntime) -> Result<(), Fail> {
    let why = why_in_chain(rt.alloc(), 128, SMALL).map_err(|_| "an answer")?;
    assert!(rt; why.starts_with("above 0 1 2 "));
    assert!(rt; why.ends_with(" 125 126 : : 127 TooLong"));
    Ok(())
}

#[test]
fn what_an_explanation_may_spend(rt: HostRuntime) -> Result<(), Fail> {
    let enough = Budget {
        signatures: 4,
        steps: 4,
    };
    let why = why_in_chain(rt.alloc(), 3, enough).map_err(|_| "an answer")?;
    assert_eq!(rt; why.as_str(), "above 0 1 2 : :");
    let few_questions = Budget {
        signatures: 3,
        steps: 4,
    };
    let unasked = why_in_chain(rt.alloc(), 3, few_questions).map_err(|_| "an answer")?;
    assert_eq!(rt; unasked.as_str(), "gave up");
    let few_tails = Budget {
        signatures: 4,
        steps: 3,
    };
    let unseen = why_in_chain(rt.alloc(), 3, few_tails).map_err(|_| "an answer")?;
    assert_eq!(rt; unseen.as_str(), "gave up");
    Ok(())
}

/// So many certificates with one name and one key, all but the last one issued by strangers.
fn namesakes_of(alloc: Global, count: u32) -> Result<Vec<Vec<u8>>, SearchFault> {
    let mut all = Vec::new(alloc);
    for number in 1..count {
        let text = format!(in alloc; "ca(A,X{number})")?;
        all.push(certificate(alloc, text.as_str())?)?;
    }
    all.push(certificate(alloc, "ca(A,R)")?)?;
    Ok(all)
}

fn found_among_namesakes(alloc: Global, budget: Budget) -> Result<String, SearchFault> {
    let anchors = octets_of(alloc, "ca(R,R)")?;
    let bag = namesakes_of(alloc, 64)?;
    let target = certificate(alloc, "ee(T,A)")?;
    found_among(alloc, anchors, bag, target, budget)
}

#[test]
fn certificates_of_strangers_are_not_asked_about(rt: HostRuntime) -> Result<(), Fail> {
    let two = Budget {
        signatures: 2,
        steps: 10,
    };
    let found = found_among_namesakes(rt.alloc(), two).map_err(|_| "an answer")?;
    assert_eq!(rt; found.as_str(), "0 : 63");
    let one = Budget {
        signatures: 1,
        steps: 10,
    };
    let gave_up = found_among_namesakes(rt.alloc(), one).map_err(|_| "an answer")?;
    assert_eq!(rt; gave_up.as_str(), "gave up");
    Ok(())
}
