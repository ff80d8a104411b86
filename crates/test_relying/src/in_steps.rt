//! Deliveries in two steps, and questions about certificates that were read.

use crate::answering::{FIFTH, LEAF, REVOKING, STORED};
use crate::asking::{MIDDLE, octets_of};
use crate::telling::{Question, asked, pair_of};
use cert::Certificate;
use relying::Verdict::Revoked;
use relying::{DeliverAnswer, DeliverFault, Node, Options, Query, Verdict, read_statement};
use sqlite_disk::Disk;
use std::alloc::Global;
use vectors::ToyVerifier;

/// What the party says of a path of one certificate, which is read first.
fn verdict_of_read<D: Disk + Drop>(
    alloc: Global,
    party: &mut Node<ToyVerifier, D>,
    anchor: &[u8],
    leaf: &[u8],
) -> Option<Verdict> {
    let anchor = Certificate::read(alloc, anchor).ok()?;
    let mut path = Vec::new(alloc);
    path.push(Certificate::read(alloc, leaf).ok()?).ok()?;
    let query = Query {
        anchor,
        path,
        moment: MIDDLE,
        purpose: None,
        options: Options::stated(),
    };
    party.verdict(alloc, &query).ok()
}

/// An issuer's certificate, a list of that issuer, and the certificate that the list revokes.
#[derive(Drop)]
struct InSteps(Vec<u8>, Vec<u8>, Vec<u8>);

impl Question for InSteps {
    fn is_answered<D: Disk + Drop>(
        &self,
        alloc: Global,
        party: &mut Node<ToyVerifier, D>,
        _answers: &[DeliverAnswer],
    ) -> bool {
        let Ok(facts) = read_statement(alloc, &ToyVerifier, &self.0, &self.1) else {
            return false;
        };
        if party.take(&facts).ok() != STORED.ok() {
            return false;
        }
        verdict_of_read(alloc, party, &self.0, &self.2) == Some(Revoked(1, 1))
    }
}

fn takes_what_was_read(alloc: Global) -> Option<bool> {
    let (issuer, statement) = pair_of(alloc, &REVOKING)?;
    let leaf = octets_of(alloc, LEAF)?.pop()?;
    asked(alloc, &[FIFTH], &InSteps(issuer, statement, leaf))
}

#[test]
fn a_statement_is_read_and_then_taken(rt: HostRuntime) {
    assert!(rt; takes_what_was_read(rt.alloc()) == Some(true));
}

/// The list in the place of the certificate.
fn issuer_is_refused(alloc: Global) -> Option<bool> {
    let (issuer, statement) = pair_of(alloc, &REVOKING)?;
    match read_statement(alloc, &ToyVerifier, &statement, &issuer) {
        Err(DeliverFault::Issuer(_)) => Some(true),
        _ => Some(false),
    }
}

#[test]
fn the_issuer_is_refused_first(rt: HostRuntime) {
    assert!(rt; issuer_is_refused(rt.alloc()) == Some(true));
}
