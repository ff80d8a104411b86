//! Why octets are not a certificate.

ghost use Rattle.std.specs.Prelude.{◌≡◌};
ghost use Rattle.cert.specs.Fault.{cert_rule_number, cert_rule_name, cert_fault_number, cert_fault_name, cert_fault_place};
ghost use Rattle.cert.specs.declared.fault.CertFault.TheVariants.{Memory, Refused};
ghost use Rattle.cert.specs.declared.fault.CertRule.TheVariants.{Name};

use asn::Rule;
use names::NameRule;
use std::alloc::{AllocError, AllocFailed};
use thiserror::Error;

/// The rule that a certificate breaks.
#[derive(Clone, Copy, Debug, PartialEq, Eq, Error)]
pub enum CertRule {
    /// The input, or the contents of an OCTET STRING that holds a value, are not DER.
    #[error("fault 21: not DER: {0}")]
    Der(Rule),
    /// A name, a general name or the base of a subtree is malformed.
    #[error("{0}")]
    Name(NameRule),
    /// A value has an identifier that the layout does not have there, is missing, or is left over (4.1, 4.2).
    #[error("fault 22: value that the layout does not have there")]
    Layout,
    /// A version that is not served, or a component that the version does not have (RFC 5280, 4.1.2.1, 4.1.2.8, 4.1.2.9).
    #[error("fault 23: version that is not served, or a component that it does not have")]
    Version,
    /// A signatureAlgorithm other than that of the signed part (4.1.1.2).
    #[error("fault 24: signature algorithms that differ")]
    AlgorithmsDiffer,
    /// A serial number of no octets, or of more than 32.
    #[error("fault 25: serial number of no octets or of more than 32")]
    Serial,
    /// A time that does not exist (4.1.2.5).
    #[error("fault 26: time that does not exist")]
    Time,
    /// An issuer with an empty name (4.1.2.4).
    #[error("fault 27: issuer without a name")]
    EmptyIssuer,
    /// An extension of the type of an earlier one (4.2).
    #[error("fault 28: extension repeated")]
    ExtensionRepeated,
    /// The value of an extension does not have the layout of its type (4.2.1).
    #[error("fault 29: value of an extension that has not the layout of its type")]
    ExtensionValue,
    /// A subtree with a minimum or a maximum (4.2.1.10).
    #[error("fault 30: subtree with a minimum or a maximum")]
    SubtreeBounds,
    /// A signature whose BIT STRING has unused bits (4.1.1.3).
    #[error("fault 31: signature with unused bits")]
    SignatureBits,
    /// More than 4,096 names or subtrees.
    #[error("fault 32: more names or subtrees than are served")]
    Limit,
}

/// The rule that is broken, with the offset of the value that breaks it in the text handed to `asn::whole`.
pub type CertRefusal = (CertRule, usize);

/// A fault in a name, as one of a certificate.
pub(crate) fn name_refusal(refusal: (NameRule, usize)) -> CertRefusal
    ensures { result ≡ (Name refusal.0, refusal.1) }
{
    let (fault, at) = refusal;
    (CertRule::Name(fault), at)
}

/// Why octets were not read as a certificate: the first rule that is broken, with the offset of the value that breaks it, or lack of
/// memory.
#[derive(Clone, Copy, Debug, PartialEq, Eq, Error)]
pub enum CertFault {
    #[error("{0}, at offset {1}")]
    Refused(CertRule, usize),
    #[error("fault 33: no memory")]
    Memory,
}

impl CertRule {
    /// The number of the rule, from 21 to 32, or from 11 to 19 for a fault in a name.
    pub fn number(self) -> u8
        ensures { result ≡ cert_rule_number self }
    {
        match self {
            CertRule::Der(_) => 21,
            CertRule::Name(fault) => fault.number(),
            CertRule::Layout => 22,
            CertRule::Version => 23,
            CertRule::AlgorithmsDiffer => 24,
            CertRule::Serial => 25,
            CertRule::Time => 26,
            CertRule::EmptyIssuer => 27,
            CertRule::ExtensionRepeated => 28,
            CertRule::ExtensionValue => 29,
            CertRule::SubtreeBounds => 30,
            CertRule::SignatureBits => 31,
            CertRule::Limit => 32,
        }
    }

    /// The name of the rule, printed beside the number.
    pub fn name(self) -> &'static str
        ensures { result.now ≡ cert_rule_name self }
    {
        match self {
            CertRule::Der(_) => "Der",
            CertRule::Name(fault) => fault.name(),
            CertRule::Layout => "Layout",
            CertRule::Version => "Version",
            CertRule::AlgorithmsDiffer => "AlgorithmsDiffer",
            CertRule::Serial => "Serial",
            CertRule::Time => "Time",
            CertRule::EmptyIssuer => "EmptyIssuer",
            CertRule::ExtensionRepeated => "ExtensionRepeated",
            CertRule::ExtensionValue => "ExtensionValue",
            CertRule::SubtreeBounds => "SubtreeBounds",
            CertRule::SignatureBits => "SignatureBits",
            CertRule::Limit => "Limit",
        }
    }
}

impl CertFault {
    /// The number of the fault: that of the rule, or 33 for lack of memory.
    pub fn number(self) -> u8
        ensures { result ≡ cert_fault_number self }
    {
        match self {
            CertFault::Refused(rule, _) => rule.number(),
            CertFault::Memory => 33,
        }
    }

    /// The name of the fault, printed beside the number.
    pub fn name(self) -> &'static str
        ensures { result.now ≡ cert_fault_name self }
    {
        match self {
            CertFault::Refused(rule, _) => rule.name(),
            CertFault::Memory => "Memory",
        }
    }

    /// The offset of the value that is refused; `None` for lack of memory.
    pub fn place(self) -> Option<usize>
        ensures { result ≡ cert_fault_place self }
    {
        match self {
            CertFault::Refused(_, at) => Some(at),
            CertFault::Memory => None,
        }
    }
}

impl From<CertRefusal> for CertFault {
    ghost from_gives = { λ refusal fault. fault ≡ Refused refusal.0 refusal.1 };

    fn from(refusal: CertRefusal) -> CertFault {
        CertFault::Refused(refusal.0, refusal.1)
    }
}

impl From<AllocError> for CertFault {
    ghost from_gives = { λ _ fault. fault ≡ Memory };

    fn from(_: AllocError) -> CertFault {
        CertFault::Memory
    }
}

impl<T: Drop> From<AllocFailed<T>> for CertFault {
    ghost from_gives = { λ _ fault. fault ≡ Memory };

    fn from(_: AllocFailed<T>) -> CertFault {
        CertFault::Memory
    }
}
