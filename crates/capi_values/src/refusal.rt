//! Why a certificate or a statement is refused, as numbers.

ghost use Rattle.std.specs.Prelude.{◌≡◌};
ghost use Rattle.capi_values.specs.Refusal.{TellsQueryFault, TellsStatementsFault, der_number, der_number_of, no_memory};

use cert::{CertFault, CertRule};
use path::QueryFault;
use relying_texts::StatementsFault;
use statements_parts::{ReadingFault, StatementRule};
use std::alloc::AllocError;

/// Which certificate or statement is refused, and why. All is 0 if none is. In C the fields stand among those of the answer.
#[derive(Clone, Copy, Debug, PartialEq, Eq, Default)]
#[repr(C)]
pub struct Refusal {
    /// 1 the certificates, 2 the statements, and 0 if memory was refused.
    pub text: u32,
    pub fault: u32,
    /// The number of the rule of DER that is broken, if `fault` is 21 or 41; else 0.
    pub der_fault: u32,
    /// Which of them: of the certificates of a query the anchor has 0; for those of a search see `SearchOfTexts`.
    pub index: usize,
    /// Of the value at fault, in that certificate or statement.
    pub offset: usize,
}

/// The number of the rule of DER that is broken, or 0.
pub fn der_fault(rule: CertRule) -> u32
    ensures { result ≡ der_number rule }
{
    match rule {
        CertRule::Der(rule) => u32::from(rule.number()),
        _ => 0,
    }
}

/// The same of a statement.
fn der_fault_of(rule: StatementRule) -> u32
    ensures { result ≡ der_number_of rule }
{
    match rule {
        StatementRule::Der(rule) => u32::from(rule.number()),
        _ => 0,
    }
}

impl Refusal {
    /// Memory was refused.
    pub(crate) fn no_memory() -> Refusal
        ensures { result ≡ no_memory }
    {
        Refusal {
            fault: 33,
            ..Refusal::default()
        }
    }

    pub(crate) fn of_certificate(refusal: QueryFault) -> Refusal
        ensures { TellsQueryFault refusal result }
    {
        match refusal.fault {
            CertFault::Refused(rule, offset) => Refusal {
                text: 1,
                fault: u32::from(rule.number()),
                der_fault: der_fault(rule),
                index: refusal.certificate,
                offset,
            },
            CertFault::Memory => Refusal::no_memory(),
        }
    }

    pub(crate) fn of_statement(refusal: StatementsFault) -> Refusal
        ensures { TellsStatementsFault refusal result }
    {
        match refusal.fault {
            ReadingFault::Refused(rule, offset) => Refusal {
                text: 2,
                fault: u32::from(rule.number()),
                der_fault: der_fault_of(rule),
                index: refusal.statement,
                offset,
            },
            ReadingFault::Memory => Refusal::no_memory(),
        }
    }
}

impl From<AllocError> for Refusal {
    ghost use Rattle.std.specs.Prelude.{◌≡◌};
    ghost use Rattle.capi_values.specs.Refusal.{no_memory};

    ghost from_gives = { λ _ refusal. refusal ≡ no_memory };

    fn from(_: AllocError) -> Refusal {
        Refusal::no_memory()
    }
}
