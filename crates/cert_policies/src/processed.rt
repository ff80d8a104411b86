//! Whether certificatePolicies is processed where it is critical (RFC 5280, 4.2 and 4.2.1.4).

ghost use Rattle.std.specs.Prelude.{◌≡◌, ◌↔◌, IsTrue};
ghost use Rattle.asn.specs.Reading.{left, seen_tlv, seen, Gives, ReadsAs};
ghost use Rattle.cert_policies.specs.ProcessedPolicies.{is_known_qualifier, known_qualifier, known_qualifiers, qualifiers_in, all_qualifiers, processed_policy, all_processed, processed_policies, ArePoliciesProcessed, nothing};

use asn::{Cursor, OBJECT_IDENTIFIER, SEQUENCE, Tlv};
use cert::{CertRefusal, CertRule, contained_value};

/// id-qt-cps, 1.3.6.1.5.5.7.2.1
const CPS: &[u8] = &[0x2B, 0x06, 0x01, 0x05, 0x05, 0x07, 0x02, 0x01];

/// id-qt-unotice, 1.3.6.1.5.5.7.2.2
const USER_NOTICE: &[u8] = &[0x2B, 0x06, 0x01, 0x05, 0x05, 0x07, 0x02, 0x02];

/// Whether these are the contents of the type of a qualifier that is known.
fn is_known_qualifier(oid: &[u8]) -> bool
    ensures { result ≡ is_known_qualifier oid.now }
{
    oid == CPS || oid == USER_NOTICE
}

/// PolicyQualifierInfo ::= SEQUENCE { policyQualifierId PolicyQualifierId, qualifier ANY DEFINED BY policyQualifierId }, of a type that is
/// known, whatever the qualifier says.
#[tactic(auto, unfolding(crate::specs::ProcessedPolicies::known_qualifier, asn::specs::Walk::check_that))]
fn check_qualifier(value: Tlv<'_>) -> Result<(), CertRefusal>
    ensures { ReadsAs nothing result value.entry known_qualifier }
{
    value.is_a(SEQUENCE, CertRule::ExtensionValue)?;
    let mut members = value.members();
    let kind = members.required(OBJECT_IDENTIFIER, CertRule::ExtensionValue)?;
    members.next_or(CertRule::ExtensionValue)?;
    members.ended(CertRule::ExtensionValue)?;
    if is_known_qualifier(kind.body) {
        Ok(())
    } else {
        Err((CertRule::ExtensionValue, value.at))
    }
}

/// The qualifiers that the values are.
fn check_all_qualifiers(members: Cursor<'_>) -> Result<(), CertRefusal>
    ensures { Gives nothing result (all_qualifiers (left members.entry)) }
{
    let mut members = members;
    while let Some(value) = members.next() {
        match check_qualifier(value) {
            Ok(()) => {}
            Err(refusal) => return Err(refusal),
        }
    }
    Ok(())
}

/// policyQualifiers SEQUENCE SIZE (1..MAX) OF PolicyQualifierInfo
#[tactic(auto, unfolding(crate::specs::ProcessedPolicies::qualifiers_in))]
fn check_qualifiers_in(list: Tlv<'_>) -> Result<(), CertRefusal>
    ensures { ReadsAs nothing result list.entry qualifiers_in }
{
    list.is_a(SEQUENCE, CertRule::ExtensionValue)?;
    let members = list.members();
    members.some(CertRule::ExtensionValue)?;
    check_all_qualifiers(members)
}

/// The qualifiers, if there are any.
fn check_qualifiers(list: Option<Tlv<'_>>) -> Result<(), CertRefusal>
    ensures { Gives nothing result (known_qualifiers (seen seen_tlv list.entry)) }
{
    match list {
        None => Ok(()),
        Some(list) => check_qualifiers_in(list),
    }
}

/// PolicyInformation ::= SEQUENCE { policyIdentifier CertPolicyId, policyQualifiers .. OPTIONAL }
#[tactic(auto, unfolding(crate::specs::ProcessedPolicies::processed_policy))]
fn check_policy(value: Tlv<'_>) -> Result<(), CertRefusal>
    ensures { ReadsAs nothing result value.entry processed_policy }
{
    value.is_a(SEQUENCE, CertRule::ExtensionValue)?;
    let mut members = value.members();
    members.required(OBJECT_IDENTIFIER, CertRule::ExtensionValue)?;
    let qualifiers = members.optional(SEQUENCE);
    members.ended(CertRule::ExtensionValue)?;
    check_qualifiers(qualifiers)
}

/// The policies that the values are.
fn check_all_policies(members: Cursor<'_>) -> Result<(), CertRefusal>
    ensures { Gives nothing result (all_processed (left members.entry)) }
{
    let mut members = members;
    while let Some(value) = members.next() {
        match check_policy(value) {
            Ok(()) => {}
            Err(refusal) => return Err(refusal),
        }
    }
    Ok(())
}

/// certificatePolicies ::= SEQUENCE SIZE (1..MAX) OF PolicyInformation
#[tactic(auto, unfolding(crate::specs::ProcessedPolicies::processed_policies))]
fn check_policies(octet_string: Tlv<'_>) -> Result<(), CertRefusal>
    ensures { ReadsAs nothing result octet_string.entry processed_policies }
{
    let value = contained_value(octet_string)?;
    value.is_a(SEQUENCE, CertRule::ExtensionValue)?;
    let members = value.members();
    members.some(CertRule::ExtensionValue)?;
    check_all_policies(members)
}

/// Whether the OCTET STRING holds certificatePolicies, each qualifier of a type that RFC 5280 knows, id-qt-cps or id-qt-unotice: what has to
/// be so where that extension is critical (4.2, 4.2.1.4). What a qualifier says, and whether a policy is repeated, is not looked at. No
/// memory is taken; time is linear.
pub fn are_policies_processed(octet_string: Tlv<'_>) -> bool
    ensures { IsTrue result ↔ ArePoliciesProcessed (seen_tlv octet_string.entry) }
{
    check_policies(octet_string).is_ok()
}
