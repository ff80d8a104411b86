//! Questions about paths in the notation of the rows, and their answers.

use crate::building::certificate;
use cert::{CertFault, CertRule};
use der_tree::EncodeFault;
use path::{Options, Outcome, Query, QueryFault};
use statements_facts::Profile;
use statements_parts::ReadingFault;
use std::alloc::{AllocError, AllocFailed, Global};
use vectors::{NotationFault, ToyVerifier};

/// 2025-06-15T00:00:00Z
pub const MIDDLE: i64 = 1_749_945_600;

/// Why a row has no answer.
#[derive(Clone, Copy, Debug, PartialEq, Eq)]
pub enum RowFault {
    Memory,
    /// A word that the notation does not have.
    Word,
    /// A certificate that is refused.
    Refused(QueryFault),
}

impl From<AllocError> for RowFault {
    fn from(_: AllocError) -> RowFault {
        RowFault::Memory
    }
}

impl<T: Drop> From<AllocFailed<T>> for RowFault {
    fn from(_: AllocFailed<T>) -> RowFault {
        RowFault::Memory
    }
}

impl From<NotationFault> for RowFault {
    fn from(fault: NotationFault) -> RowFault {
        match fault {
            NotationFault::Memory => RowFault::Memory,
            _ => RowFault::Word,
        }
    }
}

impl From<EncodeFault> for RowFault {
    fn from(fault: EncodeFault) -> RowFault {
        match fault {
            EncodeFault::Memory => RowFault::Memory,
            _ => RowFault::Word,
        }
    }
}

impl From<ReadingFault> for RowFault {
    fn from(fault: ReadingFault) -> RowFault {
        match fault {
            ReadingFault::Memory => RowFault::Memory,
            ReadingFault::Refused(_, _) => RowFault::Word,
        }
    }
}

impl From<QueryFault> for RowFault {
    fn from(fault: QueryFault) -> RowFault {
        match fault.fault {
            CertFault::Memory => RowFault::Memory,
            _ => RowFault::Refused(fault),
        }
    }
}

/// The octets of the anchor R and of the certificates, between which a stroke stands.
pub fn octets_of(alloc: Global, path: &str) -> Result<Vec<Vec<u8>>, RowFault> {
    let mut all = Vec::new(alloc);
    all.push(certificate(alloc, "ca(R,R)")?)?;
    for text in path.split(" / ").filter(|text| !text.is_empty()) {
        all.push(certificate(alloc, text)?)?;
    }
    Ok(all)
}

/// The question about the octets, of which the first are those of the anchor, in a profile, for a purpose.
pub fn question_for<'p>(
    alloc: Global,
    profile: Profile,
    octets: &'p [Vec<u8>],
    purpose: Option<&'p [u8]>,
) -> Result<Query<'p>, RowFault> {
    let Some((anchor, path)) = octets.split_first() else {
        return Err(RowFault::Word);
    };
    let mut texts = Vec::new(alloc);
    for text in path {
        texts.push(text.as_slice())?;
    }
    let options = Options { profile };
    Ok(Query::read_with(alloc, anchor, &texts, MIDDLE, purpose, options)?)
}

/// The same in the wide profile, for any purpose.
pub fn question<'p>(alloc: Global, octets: &'p [Vec<u8>]) -> Result<Query<'p>, RowFault> {
    question_for(alloc, Profile::Wide, octets, None)
}

fn outcome_for(
    alloc: Global,
    profile: Profile,
    purpose: Option<&[u8]>,
    path: &str,
) -> Result<Outcome, RowFault> {
    let octets = octets_of(alloc, path)?;
    let query = question_for(alloc, profile, &octets, purpose)?;
    Ok(query.validate(alloc, &ToyVerifier)?)
}

/// A certificate that is refused before any is validated: its number, the number of the fault, and its place.
fn refused(alloc: Global, refused: QueryFault) -> Result<String, RowFault> {
    let CertFault::Refused(CertRule::Name(rule), at) = refused.fault else {
        return Err(RowFault::Refused(refused));
    };
    let (number, fault) = (refused.certificate, rule.number());
    Ok(format!(in alloc; "refused {number} {fault} {at}")?)
}

/// What is answered about the path in the profile, for the purpose.
pub fn answer_for(
    alloc: Global,
    profile: Profile,
    purpose: Option<&[u8]>,
    path: &str,
) -> Result<String, RowFault> {
    match outcome_for(alloc, profile, purpose, path) {
        Ok(Outcome::Good) => Ok(format!(in alloc; "good")?),
        Ok(Outcome::Bad(number, reason)) => {
            let rank = reason.rank();
            Ok(format!(in alloc; "bad {number} {rank} {}", reason.name())?)
        }
        Err(RowFault::Refused(fault)) => refused(alloc, fault),
        Err(fault) => Err(fault),
    }
}

/// What is answered in the wide profile, for any purpose.
pub fn answer_to(alloc: Global, path: &str) -> Result<String, RowFault> {
    answer_for(alloc, Profile::Wide, None, path)
}
