//! Why octets are not DER.

ghost use Rattle.std.specs.Prelude.{◌≡◌};
ghost use Rattle.der.specs.Fault.{rule_number, rule_name, fault_number, fault_name, fault_place};

use thiserror::Error;

/// A rule of DER. If one value breaks several, the first in this order is reported.
#[derive(Clone, Copy, Debug, PartialEq, Eq, Error)]
pub enum Rule {
    /// An identifier octet that is not served: a high tag number, universal 0, or a universal type in the wrong form
    /// (X.690, 8.1.2).
    #[error("fault 1: identifier octet that is not served")]
    TagForm,
    /// Length octets that are indefinite, reserved, or more than the length needs (8.1.3, 10.1).
    #[error("fault 2: length octets that are not the shortest")]
    LengthForm,
    /// Contents of 2^28 octets or more.
    #[error("fault 3: contents past the limit")]
    TooLong,
    /// A header or contents that pass the end of the enclosing value, or of the input.
    #[error("fault 4: value cut short")]
    Truncated,
    /// A value at depth 33.
    #[error("fault 5: value nested too deep")]
    TooDeep,
    /// Contents that the type does not allow (8.2 to 8.8, 8.19, 11.1, 11.2).
    #[error("fault 6: contents that the type does not allow")]
    Content,
    /// Octets behind the outermost value.
    #[error("fault 7: octets behind the value")]
    Trailing,
}

/// Why octets were refused: the first rule that is broken, with the offset of the value that breaks it (of its identifier octet; for
/// `Trailing`, of the first octet behind the value), or lack of memory.
#[derive(Clone, Copy, Debug, PartialEq, Eq, Error)]
pub enum Fault {
    #[error("{0}, at offset {1}")]
    Refused(Rule, usize),
    #[error("fault 8: no memory")]
    Memory,
}

impl Rule {
    /// The number of the rule, from 1 to 7.
    pub fn number(self) -> u8
        ensures { result ≡ rule_number self }
    {
        match self {
            Rule::TagForm => 1,
            Rule::LengthForm => 2,
            Rule::TooLong => 3,
            Rule::Truncated => 4,
            Rule::TooDeep => 5,
            Rule::Content => 6,
            Rule::Trailing => 7,
        }
    }

    /// The name of the rule, printed beside the number.
    pub fn name(self) -> &'static str
        ensures { result.now ≡ rule_name self }
    {
        match self {
            Rule::TagForm => "TagForm",
            Rule::LengthForm => "LengthForm",
            Rule::TooLong => "TooLong",
            Rule::Truncated => "Truncated",
            Rule::TooDeep => "TooDeep",
            Rule::Content => "Content",
            Rule::Trailing => "Trailing",
        }
    }
}

impl Fault {
    /// The number of the fault, from 1 to 8.
    pub fn number(self) -> u8
        ensures { result ≡ fault_number self }
    {
        match self {
            Fault::Refused(rule, _) => rule.number(),
            Fault::Memory => 8,
        }
    }

    /// The name of the fault, printed beside the number.
    pub fn name(self) -> &'static str
        ensures { result.now ≡ fault_name self }
    {
        match self {
            Fault::Refused(rule, _) => rule.name(),
            Fault::Memory => "Memory",
        }
    }

    /// The offset of the value at fault; `None` for lack of memory.
    pub fn place(self) -> Option<usize>
        ensures { result ≡ fault_place self }
    {
        match self {
            Fault::Refused(_, at) => Some(at),
            Fault::Memory => None,
        }
    }
}
