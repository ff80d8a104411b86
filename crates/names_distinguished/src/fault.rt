//! Why octets are not a name.

ghost use Rattle.std.specs.Prelude.{◌≡◌};
ghost use Rattle.names_distinguished.specs.Fault.{name_rule_number, name_rule_name};

use thiserror::Error;

/// The rule that a name, a general name or the base of a subtree breaks.
#[derive(Clone, Copy, Debug, PartialEq, Eq, Error)]
pub enum NameRule {
    /// A value has another identifier octet, is missing, or is left over.
    #[error("fault 11: not the layout of a name")]
    NameLayout,
    /// An attribute of a type that an earlier one of its RDN has (X.501, 9.3).
    #[error("fault 12: attribute type repeated in one RDN")]
    RdnRepeat,
    /// An attribute whose octets are less than those of the one before it (X.690, 11.6).
    #[error("fault 13: attributes of an RDN out of order")]
    SetOrder,
    /// A string with octets that its type does not hold.
    #[error("fault 14: not a string of its type")]
    Text,
    /// Not a dNSName, or not the base of a constraint on them (RFC 5280, 4.2.1.6 and 4.2.1.10).
    #[error("fault 15: not a DNS name")]
    DnsForm,
    /// An address, or an address with its mask, of another number of octets (RFC 5280, 4.2.1.6 and 4.2.1.10).
    #[error("fault 16: not an IP address")]
    IpForm,
    /// A mask that is not ones and then zeros (RFC 4632, 3.1).
    #[error("fault 17: not a mask of ones and then zeros")]
    MaskForm,
    /// Not an rfc822Name, or not the base of a constraint on them (RFC 5280, 4.2.1.6 and 4.2.1.10); told only to who asks for such names.
    #[error("fault 18: not a mail address")]
    MailForm,
    /// Not the base of a constraint on URIs: a host, or a dot and a domain (RFC 5280, 4.2.1.10); told only to who asks for such names.
    #[error("fault 19: not a constraint on URIs")]
    UriForm,
}

/// The rule that is broken, and the offset of the value, from the first octet of the value that was handed in.
pub type NameRefusal = (NameRule, usize);

impl NameRule {
    /// The number of the fault, from 11 to 19.
    pub fn number(self) -> u8
        ensures { result ≡ name_rule_number self }
    {
        match self {
            NameRule::NameLayout => 11,
            NameRule::RdnRepeat => 12,
            NameRule::SetOrder => 13,
            NameRule::Text => 14,
            NameRule::DnsForm => 15,
            NameRule::IpForm => 16,
            NameRule::MaskForm => 17,
            NameRule::MailForm => 18,
            NameRule::UriForm => 19,
        }
    }

    /// The name of the fault, printed beside the number.
    pub fn name(self) -> &'static str
        ensures { result.now ≡ name_rule_name self }
    {
        match self {
            NameRule::NameLayout => "NameLayout",
            NameRule::RdnRepeat => "RdnRepeat",
            NameRule::SetOrder => "SetOrder",
            NameRule::Text => "Text",
            NameRule::DnsForm => "DnsForm",
            NameRule::IpForm => "IpForm",
            NameRule::MaskForm => "MaskForm",
            NameRule::MailForm => "MailForm",
            NameRule::UriForm => "UriForm",
        }
    }
}
