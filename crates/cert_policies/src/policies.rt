//! certificatePolicies: the policies that a certificate was issued under (RFC 5280, 4.2.1.4).

ghost use Rattle.std.specs.Prelude.{◌≡◌};
ghost use Rattle.asn.specs.Oid.{oid_contents};
ghost use Rattle.asn.specs.Reading.{left, ReadsAs};
ghost use Rattle.cert.specs.Fault.{GivesUnlessFull, ReadsUnlessFull};
ghost use Rattle.cert_policies.specs.CertificatePolicies.{policy_information, seen_stated, none_stated, AddsPolicy, all_policies, certificate_policies};
ghost use Rattle.cert_policies.specs.PolicyExtensions.{seen_policies};

use asn::{Cursor, OBJECT_IDENTIFIER, Oid, SEQUENCE, Tlv};
use cert::{CertFault, CertRefusal, CertRule, OidSet, contained_value};
use std::alloc::Global;

/// PolicyInformation ::= SEQUENCE { policyIdentifier CertPolicyId, policyQualifiers SEQUENCE SIZE (1..MAX) OF PolicyQualifierInfo OPTIONAL }
///
/// CertPolicyId ::= OBJECT IDENTIFIER
///
/// The policy; else the fault, at a value with a wrong identifier or left over, or at the end of this one if the policy is missing. The
/// qualifiers are passed over.
#[tactic(auto, unfolding(crate::specs::CertificatePolicies::policy_information))]
fn policy_at<'a>(value: Tlv<'a>) -> Result<Oid<'a>, CertRefusal>
    ensures { ReadsAs oid_contents result value.entry policy_information }
{
    value.is_a(SEQUENCE, CertRule::ExtensionValue)?;
    let mut members = value.members();
    let policy = members.required(OBJECT_IDENTIFIER, CertRule::ExtensionValue)?;
    let _qualifiers = members.optional(SEQUENCE);
    members.ended(CertRule::ExtensionValue)?;
    Ok(Oid::new(policy.body))
}

/// The policies that were stated.
#[derive(Drop)]
pub(crate) struct Stated<'a> {
    set: OidSet<'a>,
    policies: Vec<Oid<'a>>,
}

impl<'a> Stated<'a> {
    /// No policies.
    fn none(alloc: Global) -> Stated<'a>
        ensures { seen_stated result ≡ none_stated }
    {
        Stated {
            set: OidSet::new(alloc),
            policies: Vec::new(alloc),
        }
    }

    /// Adds the policy that the value states, which must be none of the earlier ones; else the fault, at the value.
    #[tactic(auto, unfolding(crate::specs::CertificatePolicies::one_more_policy, asn::specs::Walk::check_that))]
    fn push(&mut self, value: Tlv<'a>) -> Result<(), CertFault>
        ensures { AddsPolicy value.entry self.old self.new result }
    {
        let policy = policy_at(value)?;
        if !self.set.insert(policy.contents())? {
            return Err(CertFault::Refused(CertRule::ExtensionValue, value.at));
        }
        self.policies.push(policy)?;
        Ok(())
    }
}

/// The policies that the values state.
fn stated_by<'a>(alloc: Global, members: Cursor<'a>) -> Result<Stated<'a>, CertFault>
    ensures { GivesUnlessFull seen_stated result (all_policies (left members.entry)) }
{
    let mut members = members;
    let mut stated = Stated::none(alloc);
    while let Some(value) = members.next() {
        stated.push(value)?;
    }
    Ok(stated)
}

/// certificatePolicies ::= SEQUENCE SIZE (1..MAX) OF PolicyInformation
///
/// The policies that the OCTET STRING holds, in order; else the first fault: `Der` in its contents, or `ExtensionValue` at a value with
/// a wrong identifier or left over, at a PolicyInformation whose policy was stated before, or at the end of a SEQUENCE that lacks a
/// value. Time is n log n for n policies.
#[tactic(auto, unfolding(crate::specs::CertificatePolicies::certificate_policies))]
pub(crate) fn read_policies<'a>(
    alloc: Global,
    octet_string: Tlv<'a>,
) -> Result<Vec<Oid<'a>>, CertFault>
    ensures { ReadsUnlessFull seen_policies result octet_string.entry certificate_policies }
{
    let value = contained_value(octet_string)?;
    value.is_a(SEQUENCE, CertRule::ExtensionValue)?;
    let members = value.members();
    members.some(CertRule::ExtensionValue)?;
    let stated = stated_by(alloc, members)?;
    Ok(stated.policies)
}
