//! policyMappings: which policies of the subject's domain count as which of the issuer's (RFC 5280, 4.2.1.5).

ghost use Rattle.asn.specs.Reading.{left, ReadsAs};
ghost use Rattle.cert.specs.Fault.{GivesUnlessFull, ReadsUnlessFull};
ghost use Rattle.cert_policies.specs.PolicyExtensions.{seen_mapping, seen_mappings};
ghost use Rattle.cert_policies.specs.PolicyMappings.{policy_mapping, AddsMapping, all_mappings, policy_mappings};

use asn::{Cursor, OBJECT_IDENTIFIER, Oid, SEQUENCE, Tlv};
use cert::{CertFault, CertRefusal, CertRule, contained_value};
use std::alloc::Global;

/// SEQUENCE { issuerDomainPolicy CertPolicyId, subjectDomainPolicy CertPolicyId }
#[derive(Clone, Copy, Debug, PartialEq, Eq)]
pub struct PolicyMapping<'a> {
    pub issuer_domain_policy: Oid<'a>,
    pub subject_domain_policy: Oid<'a>,
}

impl<'a> PolicyMapping<'a> {
    /// Reads a mapping; else the fault, at a value with a wrong identifier or left over, or at the end of this one if a policy is missing.
    #[tactic(auto, unfolding(crate::specs::PolicyMappings::policy_mapping))]
    fn read(value: Tlv<'a>) -> Result<PolicyMapping<'a>, CertRefusal>
        ensures { ReadsAs seen_mapping result value.entry policy_mapping }
    {
        value.is_a(SEQUENCE, CertRule::ExtensionValue)?;
        let mut members = value.members();
        let issuer = members.required(OBJECT_IDENTIFIER, CertRule::ExtensionValue)?;
        let subject = members.required(OBJECT_IDENTIFIER, CertRule::ExtensionValue)?;
        members.ended(CertRule::ExtensionValue)?;
        Ok(PolicyMapping {
            issuer_domain_policy: Oid::new(issuer.body),
            subject_domain_policy: Oid::new(subject.body),
        })
    }
}

/// Adds the mapping that the value is.
#[tactic(auto, unfolding(crate::specs::PolicyMappings::one_more_mapping))]
fn push_mapping<'a>(all: &mut Vec<PolicyMapping<'a>>, value: Tlv<'a>) -> Result<(), CertFault>
    ensures { AddsMapping value.entry all.old all.new result }
{
    let mapping = PolicyMapping::read(value)?;
    all.push(mapping)?;
    Ok(())
}

/// The mappings that the values are.
fn mapping_list<'a>(alloc: Global, members: Cursor<'a>) -> Result<Vec<PolicyMapping<'a>>, CertFault>
    ensures { GivesUnlessFull seen_mappings result (all_mappings (left members.entry)) }
{
    let mut members = members;
    let mut all = Vec::new(alloc);
    while let Some(value) = members.next() {
        push_mapping(&mut all, value)?;
    }
    Ok(all)
}

/// PolicyMappings ::= SEQUENCE SIZE (1..MAX) OF SEQUENCE { issuerDomainPolicy CertPolicyId, subjectDomainPolicy CertPolicyId }
///
/// The mappings that the OCTET STRING holds, in order; else the first fault: `Der` in its contents, or `ExtensionValue` at a value with
/// a wrong identifier or left over, or at the end of a SEQUENCE that lacks a value.
#[tactic(auto, unfolding(crate::specs::PolicyMappings::policy_mappings))]
pub(crate) fn read_mappings<'a>(
    alloc: Global,
    octet_string: Tlv<'a>,
) -> Result<Vec<PolicyMapping<'a>>, CertFault>
    ensures { ReadsUnlessFull seen_mappings result octet_string.entry policy_mappings }
{
    let value = contained_value(octet_string)?;
    value.is_a(SEQUENCE, CertRule::ExtensionValue)?;
    let members = value.members();
    members.some(CertRule::ExtensionValue)?;
    mapping_list(alloc, members)
}
