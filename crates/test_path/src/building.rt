//! Paths of certificates from texts in the notation of `vectors`.

use cert::{CertFault, Certificate};
use path::{Outcome, validate};
use std::alloc::{AllocError, AllocFailed, Global};
use vectors::{NotationFault, ToyVerifier, certificate};

/// 2025-06-15T00:00:00Z
pub const MIDDLE: i64 = 1_749_945_600;

/// Why a path of texts has no answer.
#[derive(Clone, Copy, Debug, PartialEq, Eq)]
pub enum PathFault {
    Memory,
    /// The text of this number, from 1 on, gives no certificate.
    Text(usize),
}

impl From<AllocError> for PathFault {
    fn from(_: AllocError) -> PathFault {
        PathFault::Memory
    }
}

impl<T: Drop> From<AllocFailed<T>> for PathFault {
    fn from(_: AllocFailed<T>) -> PathFault {
        PathFault::Memory
    }
}

/// The octets of the certificates that the texts ask for.
pub fn octets_of(alloc: Global, texts: &[&str]) -> Result<Vec<Vec<u8>>, PathFault> {
    let mut all = Vec::new(alloc);
    for text in texts {
        match certificate(alloc, text) {
            Ok(octets) => all.push(octets)?,
            Err(NotationFault::Memory) => return Err(PathFault::Memory),
            Err(_) => return Err(PathFault::Text(all.len() + 1)),
        }
    }
    Ok(all)
}

/// The certificates that the octets are.
pub fn certificates_of(alloc: Global, all: &[Vec<u8>]) -> Result<Vec<Certificate<'_>>, PathFault> {
    let mut read = Vec::new(alloc);
    for octets in all {
        match Certificate::read(alloc, octets) {
            Ok(one) => read.push(one)?,
            Err(CertFault::Memory) => return Err(PathFault::Memory),
            Err(_) => return Err(PathFault::Text(read.len() + 1)),
        }
    }
    Ok(read)
}

/// What validation answers of the path that the texts ask for, under the anchor `ca(R,R)`.
pub fn outcome_of(
    alloc: Global,
    texts: &[&str],
    moment: i64,
    purpose: Option<&[u8]>,
) -> Result<Outcome, PathFault> {
    let roots = octets_of(alloc, &["ca(R,R)"])?;
    let anchors = certificates_of(alloc, &roots)?;
    let all = octets_of(alloc, texts)?;
    let path = certificates_of(alloc, &all)?;
    match anchors.first() {
        None => Err(PathFault::Text(0)),
        Some(anchor) => Ok(validate(alloc, &ToyVerifier, anchor, &path, moment, purpose)?),
    }
}
