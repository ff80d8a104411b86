//! Paths that are found with their verdicts.

use crate::answering::{FIFTH, STORED};
use crate::asking::{MIDDLE, octets_of};
use crate::telling::{Question, Told, asked};
use cert::Certificate;
use path_search::{Budget, Options, Search};
use relying::Verdict::{Revoked, Unknown, Valid};
use relying::{DeliverAnswer, Finding, FindingBudget, Node, Verdict};
use sqlite_disk::Disk;
use std::alloc::Global;
use vectors::ToyVerifier;

/// Two anchors, two certificates of one authority, and one that this authority issued.
const CERTIFICATES: &[&str] = &["ca(R,R)", "ca(S,S)", "ca(A,R)", "ca(A,S)", "ee(T,A)"];

/// A list that revokes the first certificate of the authority.
const REVOKING_FIRST: Told = Some(("ca(R,R)", "crl(R,6,[05 4])", &[]));

const OF_OTHER_ANCHOR: Told = Some(("ca(S,S)", "crl(S,5)", &[]));

const OF_AUTHORITY: Told = Some(("ca(A,R)", "crl(A,5)", &[]));

/// What the party finds for the last certificate: the place of the anchor, and the verdict.
fn found_over<D: Disk + Drop>(
    alloc: Global,
    party: &mut Node<ToyVerifier, D>,
    all: &[Certificate<'_>],
) -> Option<(usize, Verdict)> {
    let (target, others) = all.split_last()?;
    let (anchors, bag) = others.split_at_checked(2)?;
    let search = Search {
        anchors,
        bag,
        target,
        moment: MIDDLE,
        purpose: None,
        options: Options::stated(),
    };
    let budget = FindingBudget {
        search: Budget {
            signatures: 20,
            steps: 20,
        },
        verdicts: 5,
    };
    match party.find(alloc, &search, budget) {
        Ok(Finding::Found(path, verdict)) => Some((path.anchor, verdict)),
        _ => None,
    }
}

/// The certificates, and what is found for the last one.
#[derive(Drop)]
struct Finds(Vec<Vec<u8>>, usize, Verdict);

impl Question for Finds {
    fn is_answered<D: Disk + Drop>(
        &self,
        alloc: Global,
        party: &mut Node<ToyVerifier, D>,
        answers: &[DeliverAnswer],
    ) -> bool {
        let mut all = Vec::new(alloc);
        for octets in &self.0 {
            let Ok(certificate) = Certificate::read(alloc, octets) else {
                return false;
            };
            if all.push(certificate).is_err() {
                return false;
            }
        }
        answers.iter().all(|answer| *answer == STORED)
            && found_over(alloc, party, &all) == Some((self.1, self.2))
    }
}

fn is_found(alloc: Global, told: &[Told], anchor: usize, verdict: Verdict) -> Option<bool> {
    let octets = octets_of(alloc, CERTIFICATES)?;
    asked(alloc, told, &Finds(octets, anchor, verdict))
}

#[test]
fn a_path_that_is_not_revoked_is_found_behind_one_that_is(rt: HostRuntime) {
    let told = &[REVOKING_FIRST, OF_OTHER_ANCHOR, OF_AUTHORITY];
    assert!(rt; is_found(rt.alloc(), told, 1, Valid) == Some(true));
}

#[test]
fn the_first_path_is_found_if_none_has_the_verdict_valid(rt: HostRuntime) {
    assert!(rt; is_found(rt.alloc(), &[REVOKING_FIRST], 0, Revoked(1, 4)) == Some(true));
    assert!(rt; is_found(rt.alloc(), &[FIFTH], 0, Unknown(2)) == Some(true));
}
