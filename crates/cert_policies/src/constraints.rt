//! policyConstraints: when a policy has to be stated, and when none may be mapped (RFC 5280, 4.2.1.11).

ghost use Rattle.asn.specs.Reading.{ReadsAs, StepGives};
ghost use Rattle.cert_policies.specs.PolicyConstraints.{skip_count, skip_certs, policy_constraints, seen_policy_constraints};

use crate::number::is_shortest_number;
use asn::{Cursor, SEQUENCE, Tlv};
use cert::{CertRefusal, CertRule, contained_value, is_negative_number, saturated_number};

/// PolicyConstraints ::= SEQUENCE { requireExplicitPolicy [0] SkipCerts OPTIONAL, inhibitPolicyMapping [1] SkipCerts OPTIONAL }
///
/// Each is the number, or the greatest `u32` if it is greater.
#[derive(Clone, Copy)]
pub(crate) struct PolicyConstraints {
    pub(crate) require_explicit_policy: Option<u32>,
    pub(crate) inhibit_policy_mapping: Option<u32>,
}

/// SkipCerts ::= INTEGER (0..MAX)
///
/// The number under an implicit tag; else the fault, at the value, if its contents are not those of such an INTEGER.
#[tactic(auto, unfolding(crate::specs::PolicyConstraints::skip_count, asn::specs::Walk::check_that))]
fn count_at(value: Tlv<'_>) -> Result<u32, CertRefusal>
    ensures { ReadsAs (λ count. count) result value.entry skip_count }
{
    if is_shortest_number(value.body) && !is_negative_number(value.body) {
        Ok(saturated_number(value.body))
    } else {
        Err((CertRule::ExtensionValue, value.at))
    }
}

/// SkipCerts OPTIONAL, under the implicit tag.
#[tactic(auto, unfolding(crate::specs::PolicyConstraints::skip_certs))]
fn take_skip_certs(tag: u8, members: &mut Cursor<'_>) -> Result<Option<u32>, CertRefusal>
    ensures { StepGives (λ count. count) result members.old members.new (skip_certs tag) }
{
    match members.optional(tag) {
        None => Ok(None),
        Some(value) => Ok(Some(count_at(value)?)),
    }
}

impl PolicyConstraints {
    /// Reads the constraints in the OCTET STRING; else the first fault: `Der` in its contents, or `ExtensionValue` at a value with a wrong
    /// identifier or left over, at a number that is negative or has no octets or more than it needs, or at the end of the SEQUENCE if
    /// it is empty.
    #[tactic(auto, unfolding(crate::specs::PolicyConstraints::policy_constraints))]
    pub(crate) fn read(octet_string: Tlv<'_>) -> Result<PolicyConstraints, CertRefusal>
        ensures { ReadsAs seen_policy_constraints result octet_string.entry policy_constraints }
    {
        let value = contained_value(octet_string)?;
        value.is_a(SEQUENCE, CertRule::ExtensionValue)?;
        let mut members = value.members();
        members.some(CertRule::ExtensionValue)?;
        let require_explicit_policy = take_skip_certs(0x80, &mut members)?;
        let inhibit_policy_mapping = take_skip_certs(0x81, &mut members)?;
        members.ended(CertRule::ExtensionValue)?;
        Ok(PolicyConstraints {
            require_explicit_policy,
            inhibit_policy_mapping,
        })
    }
}
