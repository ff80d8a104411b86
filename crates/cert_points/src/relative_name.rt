//! Names relative to the issuer of a list (RFC 5280, 4.2.1.13 and 4.1.2.4).

ghost use Rattle.asn.specs.Reading.{left, each, Gives, ReadsAs};
ghost use Rattle.cert_points.specs.RelativeName.{type_and_value, relative_name};

use asn::{Cursor, OBJECT_IDENTIFIER, SEQUENCE, Tlv};
use cert::{CertRefusal, CertRule};

/// AttributeTypeAndValue ::= SEQUENCE { type OBJECT IDENTIFIER, value ANY }
///
/// The fault, at a value with a wrong identifier or left over, or at the end of this one if a value is missing.
#[tactic(auto, unfolding(crate::specs::RelativeName::type_and_value))]
fn check_attribute(value: Tlv<'_>) -> Result<(), CertRefusal>
    ensures { ReadsAs (λ _. tt) result value.entry (type_and_value tt) }
{
    value.is_a(SEQUENCE, CertRule::ExtensionValue)?;
    let mut members = value.members();
    members.required(OBJECT_IDENTIFIER, CertRule::ExtensionValue)?;
    members.next_or(CertRule::ExtensionValue)?;
    members.ended(CertRule::ExtensionValue)
}

/// The first fault of the values, if they are not all attributes.
fn check_attributes(members: Cursor<'_>) -> Result<(), CertRefusal>
    ensures { Gives (λ _. tt) result (each type_and_value tt (left members.entry).values) }
{
    let mut members = members;
    while let Some(value) = members.next() {
        check_attribute(value)?;
    }
    Ok(())
}

/// RelativeDistinguishedName ::= SET SIZE (1..MAX) OF AttributeTypeAndValue, under the implicit tag [1]
///
/// The first fault, at a value with a wrong identifier or left over, or at the end of one that lacks a value. The order of the attributes,
/// their types and what they say are not looked at.
#[tactic(auto, unfolding(crate::specs::RelativeName::relative_name))]
pub(crate) fn check_relative_name(value: Tlv<'_>) -> Result<(), CertRefusal>
    ensures { ReadsAs (λ _. tt) result value.entry relative_name }
{
    value.is_a(0xA1, CertRule::ExtensionValue)?;
    let members = value.members();
    members.some(CertRule::ExtensionValue)?;
    check_attributes(members)
}
