//! The extensions of a certificate that are about policies.

ghost use Rattle.asn.specs.Reading.{Gives, seen, seen_tlv};
ghost use Rattle.cert.specs.Certificate.{seen_certificate};
ghost use Rattle.cert.specs.Fault.{GivesUnlessFull};
ghost use Rattle.cert_policies.specs.PolicyConstraints.{seen_policy_constraints};
ghost use Rattle.cert_policies.specs.PolicyExtensions.{seen_mappings, seen_policies, seen_policy_extensions};
ghost use Rattle.cert_policies.specs.PolicyReading.{any_policy_if_there, constraints_if_there, mappings_if_there, policies_if_there, policy_extensions};

use crate::any_policy::read_inhibit_any_policy;
use crate::constraints::PolicyConstraints;
use crate::mappings::{PolicyMapping, read_mappings};
use crate::policies::read_policies;
use asn::{Oid, Tlv};
use cert::{CertFault, CertRefusal, Certificate, ExtensionKind};
use std::alloc::Global;

/// What the extensions of a certificate say of policies.
#[derive(Drop)]
pub struct PolicyExtensions<'a> {
    /// The policies that certificatePolicies states, in order, and anyPolicy among them if it is stated; `None` without that extension.
    pub policies: Option<Vec<Oid<'a>>>,
    /// policyMappings, in order; empty without that extension.
    pub mappings: Vec<PolicyMapping<'a>>,
    /// requireExplicitPolicy of policyConstraints: the number, or the greatest `u32` if it is greater.
    pub require_explicit_policy: Option<u32>,
    /// inhibitPolicyMapping of policyConstraints, likewise.
    pub inhibit_policy_mapping: Option<u32>,
    /// inhibitAnyPolicy, likewise.
    pub inhibit_any_policy: Option<u32>,
}

/// certificatePolicies, if it is there.
fn policies_of<'a>(alloc: Global, value: Option<Tlv<'a>>) -> Result<Option<Vec<Oid<'a>>>, CertFault>
    ensures { GivesUnlessFull (seen seen_policies) result
        (policies_if_there (seen seen_tlv value.entry)) }
{
    match value {
        None => Ok(None),
        Some(octet_string) => Ok(Some(read_policies(alloc, octet_string)?)),
    }
}

/// policyMappings; none without the extension.
fn mappings_of<'a>(
    alloc: Global,
    value: Option<Tlv<'a>>,
) -> Result<Vec<PolicyMapping<'a>>, CertFault>
    ensures { GivesUnlessFull seen_mappings result
        (mappings_if_there (seen seen_tlv value.entry)) }
{
    match value {
        None => Ok(Vec::new(alloc)),
        Some(octet_string) => read_mappings(alloc, octet_string),
    }
}

/// policyConstraints; neither number without the extension.
fn constraints_of(value: Option<Tlv<'_>>) -> Result<PolicyConstraints, CertRefusal>
    ensures { Gives seen_policy_constraints result
        (constraints_if_there (seen seen_tlv value.entry)) }
{
    match value {
        None => Ok(PolicyConstraints {
            require_explicit_policy: None,
            inhibit_policy_mapping: None,
        }),
        Some(octet_string) => PolicyConstraints::read(octet_string),
    }
}

/// inhibitAnyPolicy, if it is there.
fn any_policy_of(value: Option<Tlv<'_>>) -> Result<Option<u32>, CertRefusal>
    ensures { Gives (λ count. count) result (any_policy_if_there (seen seen_tlv value.entry)) }
{
    match value {
        None => Ok(None),
        Some(octet_string) => Ok(Some(read_inhibit_any_policy(octet_string)?)),
    }
}

impl<'a> PolicyExtensions<'a> {
    /// Reads what the extensions of a certificate say of policies: certificatePolicies, policyMappings, policyConstraints and
    /// inhibitAnyPolicy (RFC 5280, 4.2.1.4, 4.2.1.5, 4.2.1.11, 4.2.1.14). Else the first fault in the value of one of these, in this
    /// order: `Der` in its contents, or `ExtensionValue`, with its offset in the text handed to `asn::whole`.
    ///
    /// Time is n log n in the octets of the values. Memory is taken for the lists, and for the policies past the sixteenth, while they are
    /// read, to find one that is repeated; `CertFault::Memory` is answered only if that was refused.
    #[tactic(auto, unfolding(crate::specs::PolicyReading::policy_extensions))]
    pub fn read(
        alloc: Global,
        certificate: &Certificate<'a>,
    ) -> Result<PolicyExtensions<'a>, CertFault>
        ensures { GivesUnlessFull seen_policy_extensions result (policy_extensions
            (seen_certificate certificate.now).extensions.values) }
    {
        let values = &certificate.extensions.values;
        let policies = policies_of(alloc, values.of(ExtensionKind::Policies))?;
        let mappings = mappings_of(alloc, values.of(ExtensionKind::PolicyMappings))?;
        let constraints = constraints_of(values.of(ExtensionKind::PolicyConstraints))?;
        let inhibit_any_policy = any_policy_of(values.of(ExtensionKind::InhibitAnyPolicy))?;
        Ok(PolicyExtensions {
            policies,
            mappings,
            require_explicit_policy: constraints.require_explicit_policy,
            inhibit_policy_mapping: constraints.inhibit_policy_mapping,
            inhibit_any_policy,
        })
    }
}
