//! Questions about paths and their policies, and their answers, in the notation of the rows.

use crate::certificates::hexadecimal;
use asn::Oid;
use cert::CertFault;
use hex::FromHexError;
use path::{QueryFault, Reason};
use path_policies::{ANY_POLICY, PolicySets};
use path_with_policies::{PolicyInputs, QueryWithPolicies};
use statements_parts::ReadingFault;
use std::alloc::{AllocError, AllocFailed, Global};

/// 2025-06-15T00:00:00Z
pub const MIDDLE: i64 = 1_749_945_600;

/// Why a row has no answer.
#[derive(Clone, Copy, Debug, PartialEq, Eq)]
pub enum RowFault {
    Memory,
    /// A word that the notation does not have.
    Word,
    /// A certificate that is refused.
    Refused(QueryFault),
    /// The place of a certificate of a search whose extensions about policies are malformed.
    Malformed(usize),
}

impl From<AllocError> for RowFault {
    fn from(_: AllocError) -> RowFault {
        RowFault::Memory
    }
}

impl<T: Drop> From<AllocFailed<T>> for RowFault {
    fn from(_: AllocFailed<T>) -> RowFault {
        RowFault::Memory
    }
}

impl From<FromHexError> for RowFault {
    fn from(fault: FromHexError) -> RowFault {
        match fault {
            FromHexError::OutOfMemory => RowFault::Memory,
            _ => RowFault::Word,
        }
    }
}

impl From<CertFault> for RowFault {
    fn from(fault: CertFault) -> RowFault {
        match fault {
            CertFault::Memory => RowFault::Memory,
            CertFault::Refused(_, _) => RowFault::Word,
        }
    }
}

impl From<ReadingFault> for RowFault {
    fn from(fault: ReadingFault) -> RowFault {
        match fault {
            ReadingFault::Memory => RowFault::Memory,
            ReadingFault::Refused(_, _) => RowFault::Word,
        }
    }
}

impl From<QueryFault> for RowFault {
    fn from(fault: QueryFault) -> RowFault {
        RowFault::Refused(fault)
    }
}

/// The octets of the certificates with these names, of which the first is that of the anchor.
pub fn octets_of(alloc: Global, names: &str) -> Result<Vec<Vec<u8>>, RowFault> {
    let mut all = Vec::new(alloc);
    for name in names.split_whitespace() {
        all.push(hex::decode(alloc, hexadecimal(name))?)?;
    }
    Ok(all)
}

/// The policies 1.2.97 and 1.2.98, a and b; anyPolicy of an asterisk.
pub fn policies_of(alloc: Global, letters: &str) -> Result<Vec<Oid<'static>>, RowFault> {
    let mut policies = Vec::new(alloc);
    for letter in letters.chars() {
        let policy = match letter {
            'a' => Oid::new(b"*a"),
            'b' => Oid::new(b"*b"),
            '*' => Oid::new(ANY_POLICY),
            _ => return Err(RowFault::Word),
        };
        policies.push(policy)?;
    }
    Ok(policies)
}

/// The inputs, by their letters: `E` for initial-explicit-policy, `M` for initial-policy-mapping-inhibit and `A` for
/// initial-any-policy-inhibit.
pub fn inputs_of<'p, 'c>(policies: &'p [Oid<'c>], letters: &str) -> PolicyInputs<'p, 'c> {
    PolicyInputs {
        initial_policies: policies,
        inhibit_policy_mapping: letters.contains('M'),
        require_explicit_policy: letters.contains('E'),
        inhibit_any_policy: letters.contains('A'),
    }
}

/// The question about the octets, of which the first are those of the anchor.
pub fn question<'p>(
    alloc: Global,
    octets: &'p [Vec<u8>],
    inputs: PolicyInputs<'p, 'p>,
) -> Result<QueryWithPolicies<'p, 'p>, RowFault> {
    let Some((anchor, path)) = octets.split_first() else {
        return Err(RowFault::Word);
    };
    let mut texts = Vec::new(alloc);
    for text in path {
        texts.push(text.as_slice())?;
    }
    Ok(QueryWithPolicies::read(alloc, anchor, &texts, MIDDLE, None, inputs)?)
}

fn push_policies(text: &mut String, word: &str, policies: &[Oid<'_>]) -> Result<(), RowFault> {
    text.push_str(word)?;
    for policy in policies {
        let letter = match policy.contents() {
            [0x2A, letter] => *letter,
            _ => b'*',
        };
        text.push(char::from(letter))?;
    }
    Ok(())
}

/// The policies at the end, as a row has them.
pub fn push_sets(text: &mut String, sets: &PolicySets<'_>) -> Result<(), RowFault> {
    push_policies(text, " A=", &sets.authority_constrained)?;
    push_policies(text, " U=", &sets.user_constrained)
}

/// A refusal, as a row has it.
pub fn bad(alloc: Global, number: usize, reason: Reason) -> Result<String, RowFault> {
    let rank = reason.rank();
    Ok(format!(in alloc; "bad {number} {rank} {}", reason.name())?)
}

/// The parts of a row, between which semicolons stand.
#[derive(Clone, Copy)]
pub struct Row<'t> {
    pub user: &'t str,
    pub inputs: &'t str,
    pub names: &'t str,
    pub wanted: &'t str,
}

pub fn row_of(row: &str) -> Row<'_> {
    let mut parts = row.split(';').map(str::trim);
    Row {
        user: parts.next().unwrap_or(""),
        inputs: parts.next().unwrap_or(""),
        names: parts.next().unwrap_or(""),
        wanted: parts.next().unwrap_or(""),
    }
}
