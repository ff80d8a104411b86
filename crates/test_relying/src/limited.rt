//! A store that does not answer is told so: 71, and not that memory ran out. A limit on steps stops each query that visits a row.

use crate::answering::{FIFTH, LEAF, REVOKING};
use crate::asking::{MIDDLE, comparison_on, verdict_on};
use crate::telling::{Party, after, pair_of};
use relying::{DeliverFault, Fault, Node, read_statement};
use sqlite_disk::Memory;
use statements_facts::{CrlFacts, Facts, Scope};
use std::alloc::Global;
use store::Store;
use store_sql::StoreFault;
use vectors::ToyVerifier;

/// The party, whose queries may take so many steps.
fn within(party: Party, steps: Option<u64>) -> Party {
    let mut store = party.into_store();
    store.conn.set_step_limit(steps);
    Node::new(ToyVerifier, store)
}

/// A party that holds the list of number 5, and whose queries take no step.
fn stopped(alloc: Global) -> Option<Party> {
    let (party, _answers) = after(alloc, &[FIFTH])?;
    Some(within(party, Some(0)))
}

/// Whether a verdict and a delivery are refused so.
fn is_told(alloc: Global, party: &mut Party) -> Option<bool> {
    let (issuer, statement) = pair_of(alloc, &REVOKING)?;
    let verdict = verdict_on(alloc, party, LEAF, MIDDLE)?;
    let delivery = party.deliver(alloc, &issuer, &statement);
    Some(
        verdict == Err(Fault::Store(StoreFault::Store))
            && delivery == Err(DeliverFault::Store(StoreFault::Store)),
    )
}

fn party_is_told(alloc: Global) -> Option<bool> {
    let mut party = stopped(alloc)?;
    is_told(alloc, &mut party)
}

#[test]
fn a_verdict_and_a_delivery(rt: HostRuntime) {
    assert_eq!(rt; party_is_told(rt.alloc()), Some(true));
}

/// Whether a comparison is refused so, whichever of the two stores does not answer.
fn comparison_is_told(alloc: Global) -> Option<bool> {
    let mut one = stopped(alloc)?;
    let (mut other, _answers) = after(alloc, &[FIFTH])?;
    let first = comparison_on(alloc, &mut one, &mut other, LEAF)?;
    let second = comparison_on(alloc, &mut other, &mut one, LEAF)?;
    let told = Err(Fault::Store(StoreFault::Store));
    Some(first == told && second == told)
}

#[test]
fn a_comparison(rt: HostRuntime) {
    assert_eq!(rt; comparison_is_told(rt.alloc()), Some(true));
}

/// Whether the store's own calls are refused so.
fn calls_are_told(store: &mut Store<Memory>, list: &CrlFacts<'_>) -> bool {
    let listed = store.crl(&list.issuer, Scope::All, b"\x05");
    let said = store.ocsp(&list.issuer, b"hash", b"\x05");
    listed.err() == Some(StoreFault::Store) && said.err() == Some(StoreFault::Store)
}

fn look_ups_are_told(alloc: Global) -> Option<bool> {
    let (issuer, statement) = pair_of(alloc, &FIFTH)?;
    let facts = read_statement(alloc, &ToyVerifier, &issuer, &statement).ok()?;
    let mut store = stopped(alloc)?.into_store();
    match facts {
        Facts::Crl(list) => Some(calls_are_told(&mut store, &list)),
        Facts::Ocsp(_) => None,
    }
}

#[test]
fn look_ups(rt: HostRuntime) {
    assert_eq!(rt; look_ups_are_told(rt.alloc()), Some(true));
}
