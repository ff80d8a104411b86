//! What parties are asked. `None` is answered where a question cannot be put, as without memory.

use crate::telling::{Told, after};
use relying::{Comparison, Fault, Node, Query, Verdict, compare};
use sqlite_disk::Disk;
use std::alloc::Global;
use vectors::{ToyVerifier, certificate};

/// 2025-06-15T00:00:00Z
pub const MIDDLE: i64 = 1_749_945_600;

/// The octets of the certificates that the texts ask for.
pub fn octets_of(alloc: Global, texts: &[&str]) -> Option<Vec<Vec<u8>>> {
    let mut all = Vec::new(alloc);
    for text in texts {
        all.push(certificate(alloc, text).ok()?).ok()?;
    }
    Some(all)
}

/// The texts of octets.
pub fn slices_of(alloc: Global, all: &[Vec<u8>]) -> Option<Vec<&[u8]>> {
    let mut slices = Vec::new(alloc);
    for octets in all {
        slices.push(octets.as_slice()).ok()?;
    }
    Some(slices)
}

/// What the party says of a path, whose first certificate is the anchor's, at the moment.
pub fn verdict_below<D: Disk + Drop>(
    alloc: Global,
    party: &mut Node<ToyVerifier, D>,
    certificates: &[&[u8]],
    moment: i64,
) -> Option<Result<Verdict, Fault>> {
    let (anchor, path) = certificates.split_first()?;
    match Query::read(alloc, anchor, path, moment, None) {
        Ok(query) => Some(party.verdict(alloc, &query)),
        Err(_) => None,
    }
}

pub fn verdict_on<D: Disk + Drop>(
    alloc: Global,
    party: &mut Node<ToyVerifier, D>,
    path: &[&str],
    moment: i64,
) -> Option<Result<Verdict, Fault>> {
    let octets = octets_of(alloc, path)?;
    let slices = slices_of(alloc, &octets)?;
    verdict_below(alloc, party, &slices, moment)
}

fn comparison_below<D: Disk + Drop>(
    alloc: Global,
    one: &mut Node<ToyVerifier, D>,
    other: &mut Node<ToyVerifier, D>,
    certificates: &[&[u8]],
) -> Option<Result<Comparison, Fault>> {
    let (anchor, path) = certificates.split_first()?;
    match Query::read(alloc, anchor, path, MIDDLE, None) {
        Ok(query) => Some(compare(alloc, one, other, &query)),
        Err(_) => None,
    }
}

pub fn comparison_on<D: Disk + Drop>(
    alloc: Global,
    one: &mut Node<ToyVerifier, D>,
    other: &mut Node<ToyVerifier, D>,
    path: &[&str],
) -> Option<Result<Comparison, Fault>> {
    let octets = octets_of(alloc, path)?;
    let slices = slices_of(alloc, &octets)?;
    comparison_below(alloc, one, other, &slices)
}

/// The comparison of what two say of the path in the middle of 2025, after what was told to either; and whether they took all of that.
pub fn compared(
    alloc: Global,
    told: (&[Told], &[Told]),
    path: &[&str],
) -> Option<(Result<Comparison, Fault>, bool)> {
    let (mut one, answers) = after(alloc, told.0)?;
    let (mut other, others) = after(alloc, told.1)?;
    let took_all = answers
        .iter()
        .chain(others.iter())
        .all(|answer| answer.is_ok());
    Some((comparison_on(alloc, &mut one, &mut other, path)?, took_all))
}
