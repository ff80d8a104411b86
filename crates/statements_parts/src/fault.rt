//! Why octets are not a statement about revocation.

ghost use Rattle.std.specs.Prelude.{◌≡◌};
ghost use Rattle.statements_parts.specs.Fault.{not_read, statement_rule_number, statement_rule_name, statement_fault_number, statement_fault_name, statement_fault_place};
ghost use Rattle.statements_parts.specs.declared.fault.ReadingFault.TheVariants as unread;
ghost use Rattle.statements_parts.specs.declared.fault.StatementFault.TheVariants.{Memory};
ghost use Rattle.statements_parts.specs.declared.fault.StatementRule.TheVariants.{Name};

use asn::Rule;
use names::NameRule;
use std::alloc::{AllocError, AllocFailed};
use thiserror::Error;

/// The rule that a statement breaks.
#[derive(Clone, Copy, Debug, PartialEq, Eq, Error)]
pub enum StatementRule {
    /// The input is not DER.
    #[error("fault 41: not DER: {0}")]
    Der(Rule),
    /// The name of the issuer or responder is malformed.
    #[error("{0}")]
    Name(NameRule),
    /// A value has an identifier that the layout does not have there, is missing, or is left over.
    #[error("fault 42: value that the layout does not have there")]
    Layout,
    /// A list of another version than v2 (RFC 5280, 5.1.2.1).
    #[error("fault 43: version other than 2")]
    NotV2,
    /// A list without a CRL number (5.2.3).
    #[error("fault 44: no CRL number")]
    NoNumber,
    /// A CRL number that is not from 0 to 2^160 - 1 (5.2.3).
    #[error("fault 45: CRL number out of range")]
    NumberRange,
    /// A list without nextUpdate (5.1.2.5).
    #[error("fault 46: no next update")]
    NoNextUpdate,
    /// A delta list (5.2.4), which is not served.
    #[error("fault 47: delta list")]
    Delta,
    /// A list for a part of its issuer's certificates that is not served (5.2.5).
    #[error("fault 48: scope that is not served")]
    Scope,
    /// An entry for a certificate of another issuer (5.3.3), which is not served.
    #[error("fault 49: entry of another issuer")]
    Indirect,
    /// A critical extension that is not known (5.2, 5.3; of a response, RFC 6960, 4.4).
    #[error("fault 50: critical extension that is not known")]
    CriticalUnknown,
    /// A reason that does not exist (5.3.1; of a response also removeFromCRL).
    #[error("fault 51: reason that does not exist")]
    BadReason,
    /// removeFromCRL in a list that is no delta list (5.3.1).
    #[error("fault 52: removal in a complete list")]
    RemoveInComplete,
    /// A response that says, by this code, that the request was not answered (RFC 6960, 4.2.1).
    #[error("fault 55: response that is not successful, of status {0}")]
    NotSuccessful(u8),
    /// A response of another type than id-pkix-ocsp-basic (RFC 6960, 4.2.1).
    #[error("fault 56: response of another type")]
    ResponseType,
    /// A response with more than 256 single responses.
    #[error("fault 59: too many single responses")]
    TooManySingles,
}

/// The rule that is broken, with the offset of the value that breaks it in the whole input.
pub type StatementRefusal = (StatementRule, usize);

/// A fault in a name, as one of a statement.
pub(crate) fn name_refusal(refusal: (NameRule, usize)) -> StatementRefusal
    ensures { result ≡ (Name refusal.0, refusal.1) }
{
    let (fault, at) = refusal;
    (StatementRule::Name(fault), at)
}

/// Why octets are not read as a statement: the first rule that is broken, with the offset of the value that breaks it, or lack of memory.
#[derive(Clone, Copy, Debug, PartialEq, Eq, Error)]
pub enum ReadingFault {
    #[error("{0}, at offset {1}")]
    Refused(StatementRule, usize),
    #[error("fault 60: no memory")]
    Memory,
}

/// Why octets were not taken as a statement of an issuer: they are not read as one, it is not the issuer's, or lack of memory.
#[derive(Clone, Copy, Debug, PartialEq, Eq, Error)]
pub enum StatementFault {
    #[error("{0}, at offset {1}")]
    Refused(StatementRule, usize),
    /// A list of an issuer with another name.
    #[error("fault 53: list of another issuer")]
    OtherIssuer,
    /// A list whose signature is not accepted under the issuer's key.
    #[error("fault 54: signature that is not accepted")]
    BadSignature,
    /// A response that nobody signed who may answer for the issuer (RFC 6960, 4.2.2.2).
    #[error("fault 57: response without a signer")]
    NoSigner,
    /// A response that says nothing of a certificate of the issuer.
    #[error("fault 58: response that says nothing for the issuer")]
    NothingForIssuer,
    #[error("fault 60: no memory")]
    Memory,
}

impl StatementRule {
    /// The number of the rule, from 41 to 52, 55, 56 or 59, or from 11 to 14 for a fault in a name.
    pub fn number(self) -> u8
        ensures { result ≡ statement_rule_number self }
    {
        match self {
            StatementRule::Der(_) => 41,
            StatementRule::Name(fault) => fault.number(),
            StatementRule::Layout => 42,
            StatementRule::NotV2 => 43,
            StatementRule::NoNumber => 44,
            StatementRule::NumberRange => 45,
            StatementRule::NoNextUpdate => 46,
            StatementRule::Delta => 47,
            StatementRule::Scope => 48,
            StatementRule::Indirect => 49,
            StatementRule::CriticalUnknown => 50,
            StatementRule::BadReason => 51,
            StatementRule::RemoveInComplete => 52,
            StatementRule::NotSuccessful(_) => 55,
            StatementRule::ResponseType => 56,
            StatementRule::TooManySingles => 59,
        }
    }

    /// The name of the rule, printed beside the number.
    pub fn name(self) -> &'static str
        ensures { result.now ≡ statement_rule_name self }
    {
        match self {
            StatementRule::Der(_) => "Der",
            StatementRule::Name(fault) => fault.name(),
            StatementRule::Layout => "Layout",
            StatementRule::NotV2 => "NotV2",
            StatementRule::NoNumber => "NoNumber",
            StatementRule::NumberRange => "NumberRange",
            StatementRule::NoNextUpdate => "NoNextUpdate",
            StatementRule::Delta => "Delta",
            StatementRule::Scope => "Scope",
            StatementRule::Indirect => "Indirect",
            StatementRule::CriticalUnknown => "CriticalUnknown",
            StatementRule::BadReason => "BadReason",
            StatementRule::RemoveInComplete => "RemoveInComplete",
            StatementRule::NotSuccessful(_) => "NotSuccessful",
            StatementRule::ResponseType => "ResponseType",
            StatementRule::TooManySingles => "TooManySingles",
        }
    }
}

impl StatementFault {
    /// The number of the fault: that of the rule, 53 or 54 for a list that is not the issuer's, 57 or 58 for a response that is not, or 60
    /// for lack of memory.
    pub fn number(self) -> u8
        ensures { result ≡ statement_fault_number self }
    {
        match self {
            StatementFault::Refused(rule, _) => rule.number(),
            StatementFault::OtherIssuer => 53,
            StatementFault::BadSignature => 54,
            StatementFault::NoSigner => 57,
            StatementFault::NothingForIssuer => 58,
            StatementFault::Memory => 60,
        }
    }

    /// The name of the fault, printed beside the number.
    pub fn name(self) -> &'static str
        ensures { result.now ≡ statement_fault_name self }
    {
        match self {
            StatementFault::Refused(rule, _) => rule.name(),
            StatementFault::OtherIssuer => "OtherIssuer",
            StatementFault::BadSignature => "BadSignature",
            StatementFault::NoSigner => "NoSigner",
            StatementFault::NothingForIssuer => "NothingForIssuer",
            StatementFault::Memory => "Memory",
        }
    }

    /// The offset of the value that is refused; `None` if the fault has no place in the octets.
    pub fn place(self) -> Option<usize>
        ensures { result ≡ statement_fault_place self }
    {
        match self {
            StatementFault::Refused(_, at) => Some(at),
            _ => None,
        }
    }
}

impl From<StatementRefusal> for ReadingFault {
    ghost from_gives = { λ refusal fault. fault ≡ unread.Refused refusal.0 refusal.1 };

    fn from(refusal: StatementRefusal) -> ReadingFault {
        ReadingFault::Refused(refusal.0, refusal.1)
    }
}

impl From<AllocError> for ReadingFault {
    ghost from_gives = { λ _ fault. fault ≡ unread.Memory };

    fn from(_: AllocError) -> ReadingFault {
        ReadingFault::Memory
    }
}

impl<T: Drop> From<AllocFailed<T>> for ReadingFault {
    ghost from_gives = { λ _ fault. fault ≡ unread.Memory };

    fn from(_: AllocFailed<T>) -> ReadingFault {
        ReadingFault::Memory
    }
}

impl From<ReadingFault> for StatementFault {
    ghost from_gives = { λ reading fault. fault ≡ not_read reading };

    fn from(fault: ReadingFault) -> StatementFault {
        match fault {
            ReadingFault::Refused(rule, at) => StatementFault::Refused(rule, at),
            ReadingFault::Memory => StatementFault::Memory,
        }
    }
}

impl From<AllocError> for StatementFault {
    ghost from_gives = { λ _ fault. fault ≡ Memory };

    fn from(_: AllocError) -> StatementFault {
        StatementFault::Memory
    }
}
