//! When memory runs out. These tests hold whichever request is refused: the answer is that of ample memory, or that memory ran out. A
//! disk in memory takes memory itself: what it is refused is a fault of the disk, which the store answers as `StoreFault::Store`.

use crate::answering::{FIFTH, LEAF, REVOKING, STORED};
use crate::asking::{MIDDLE, compared, verdict_on};
use crate::path_file::file_of;
use crate::telling::{Question, asked, pair_of};
use cert::CertFault;
use der::Fault as DerFault;
use der_stream::{ReadFault, path_octets};
use relying::Comparison::Differ;
use relying::DeliverFault::{Issuer, Statement, Store};
use relying::Verdict::{Revoked, Valid};
use relying::{DeliverAnswer, DeliverFault, Fault, Node, Query, Verdict};
use sqlite_disk::Disk;
use statements_parts::StatementFault;
use std::alloc::Global;
use store_sql::StoreFault;
use vectors::{ToyVerifier, certificate};

/// There is no memory for the call, or for its disk.
fn is_want_of_store(fault: StoreFault) -> bool {
    fault != StoreFault::Schema
}

fn is_want(fault: Fault) -> bool {
    match fault {
        Fault::Store(fault) => is_want_of_store(fault),
        Fault::Memory => true,
    }
}

fn is_want_of_delivery(fault: DeliverFault) -> bool {
    match fault {
        Issuer(fault) => fault == CertFault::Memory,
        Statement(fault) => fault == StatementFault::Memory,
        Store(fault) => is_want_of_store(fault),
    }
}

/// The statement was stored, or there was no memory for it.
fn is_stored_or_want(answer: &DeliverAnswer) -> bool {
    match answer {
        Ok(_) => *answer == STORED,
        Err(fault) => is_want_of_delivery(*fault),
    }
}

/// Whether the party says so of `ee(T,R)`, if there is memory for it.
fn says<D: Disk + Drop>(alloc: Global, party: &mut Node<ToyVerifier, D>, wanted: Verdict) -> bool {
    match verdict_on(alloc, party, LEAF, MIDDLE) {
        Some(Ok(verdict)) => verdict == wanted,
        Some(Err(fault)) => is_want(fault),
        None => true,
    }
}

/// Each list was stored, or there was no memory for it, and what was stored last counts.
#[derive(Clone, Copy)]
struct Taken;

impl Question for Taken {
    fn is_answered<D: Disk + Drop>(
        &self,
        alloc: Global,
        party: &mut Node<ToyVerifier, D>,
        answers: &[DeliverAnswer],
    ) -> bool {
        let [first, second] = answers else {
            return false;
        };
        let wanted = if second.is_ok() { Revoked(1, 1) } else { Valid };
        is_stored_or_want(first) && is_stored_or_want(second) && says(alloc, party, wanted)
    }
}

#[test]
fn events_want_memory_or_answer(rt: HostRuntime) {
    let answer = asked(rt.alloc(), &[FIFTH, None, REVOKING], &Taken);
    assert!(rt; answer != Some(false));
}

/// A statement, under an issuer, of which there is memory enough for what it takes, or what is held stays.
#[derive(Drop)]
struct Delivered(Vec<u8>, Vec<u8>);

impl Question for Delivered {
    fn is_answered<D: Disk + Drop>(
        &self,
        alloc: Global,
        party: &mut Node<ToyVerifier, D>,
        answers: &[DeliverAnswer],
    ) -> bool {
        if answers != [STORED].as_slice() {
            return true;
        }
        let answer = party.deliver(alloc, &self.0, &self.1);
        let wanted = if answer.is_ok() { Revoked(1, 1) } else { Valid };
        is_stored_or_want(&answer) && says(alloc, party, wanted)
    }
}

fn delivers(alloc: Global) -> Option<bool> {
    let (issuer, statement) = pair_of(alloc, &REVOKING)?;
    asked(alloc, &[FIFTH], &Delivered(issuer, statement))
}

#[test]
fn deliveries_want_memory_or_answer(rt: HostRuntime) {
    assert!(rt; delivers(rt.alloc()) != Some(false));
}

/// One holds the list of number 5, the other that of number 6.
fn compares(alloc: Global) -> Option<bool> {
    let (comparison, took_all) = compared(alloc, (&[FIFTH], &[REVOKING]), LEAF)?;
    match comparison {
        Ok(comparison) => Some(!took_all || comparison == Differ(Valid, Revoked(1, 1), 1)),
        Err(fault) => Some(is_want(fault)),
    }
}

#[test]
fn comparisons_want_memory_or_answer(rt: HostRuntime) {
    assert!(rt; compares(rt.alloc()) != Some(false));
}

fn reads(alloc: Global) -> Option<bool> {
    let file = file_of(alloc, LEAF)?;
    let read = path_octets(alloc, &mut file.as_slice(), 129);
    match read.stopped {
        None => Some(read.values.len() == 2),
        Some((_, fault)) => {
            Some(fault == ReadFault::Fault(DerFault::Memory) && read.values.len() < 2)
        }
    }
}

#[test]
fn path_files_want_memory_or_answer(rt: HostRuntime) {
    assert!(rt; reads(rt.alloc()) != Some(false));
}

/// The certificate of a question for which there was no memory, if there was none for it.
fn lacking<'a>(alloc: Global, anchor: &'a [u8], path: &[&'a [u8]]) -> Option<usize> {
    match Query::read(alloc, anchor, path, MIDDLE, None) {
        Ok(_) => None,
        Err(refusal) => Some(refusal.certificate),
    }
}

/// The certificates of a question: one without lists, for which no memory is taken, and one with a list of subtrees.
#[derive(Drop)]
struct Certificates {
    plain: Vec<u8>,
    constrained: Vec<u8>,
}

fn of_both_kinds(alloc: Global) -> Option<Certificates> {
    Some(Certificates {
        plain: certificate(alloc, "ee(T,R)").ok()?,
        constrained: certificate(alloc, "ca(R,R){permit dns a.example}").ok()?,
    })
}

/// Certificates without lists take no memory, so that the list of them alone does: the first below the anchor is told. An anchor with a
/// list of subtrees is told itself.
fn is_told_of_the_right_certificate(alloc: Global) -> Option<bool> {
    let both = of_both_kinds(alloc)?;
    let (plain, constrained) = (both.plain.as_slice(), both.constrained.as_slice());
    let of_three = lacking(alloc, plain, &[plain, plain, plain]).unwrap_or(1);
    let of_anchor = lacking(alloc, constrained, &[]).unwrap_or(0);
    let behind = lacking(alloc, plain, &[constrained]).unwrap_or(1);
    Some(of_three == 1 && of_anchor == 0 && behind == 1)
}

#[test]
fn certificates_of_a_question_want_memory_or_answer(rt: HostRuntime) {
    assert!(rt; is_told_of_the_right_certificate(rt.alloc()) != Some(false));
}

/// The certificate that is told where the anchor and the second below it have lists of subtrees.
fn lacking_of_two(alloc: Global) -> Option<usize> {
    let both = of_both_kinds(alloc)?;
    let (plain, constrained) = (both.plain.as_slice(), both.constrained.as_slice());
    lacking(alloc, constrained, &[plain, constrained])
}

#[test]
fn the_anchor_of_a_question_may_want_memory(rt: HostRuntime) {
    assert!(rt; lacking_of_two(rt.alloc()) != Some(0));
}

#[test]
fn the_first_certificate_of_a_question_may_want_memory(rt: HostRuntime) {
    assert!(rt; lacking_of_two(rt.alloc()) != Some(1));
}

#[test]
fn the_second_certificate_of_a_question_may_want_memory(rt: HostRuntime) {
    assert!(rt; lacking_of_two(rt.alloc()) != Some(2));
}
