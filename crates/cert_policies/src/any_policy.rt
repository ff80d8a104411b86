//! inhibitAnyPolicy: for how many more certificates anyPolicy counts (RFC 5280, 4.2.1.14).

ghost use Rattle.asn.specs.Reading.{ReadsAs};
ghost use Rattle.cert_policies.specs.InhibitAnyPolicy.{inhibit_any_policy};

use asn::{INTEGER, Tlv};
use cert::{CertRefusal, CertRule, contained_value, is_negative_number, saturated_number};

/// InhibitAnyPolicy ::= SkipCerts
///
/// SkipCerts ::= INTEGER (0..MAX)
///
/// The number in the OCTET STRING, or the greatest `u32` if it is greater; else the first fault: `Der` in its contents, or
/// `ExtensionValue` at a value that is no INTEGER, or a negative one.
#[tactic(auto, unfolding(crate::specs::InhibitAnyPolicy::inhibit_any_policy, asn::specs::Walk::check_that))]
pub(crate) fn read_inhibit_any_policy(octet_string: Tlv<'_>) -> Result<u32, CertRefusal>
    ensures { ReadsAs (λ count. count) result octet_string.entry inhibit_any_policy }
{
    let value = contained_value(octet_string)?;
    value.is_a(INTEGER, CertRule::ExtensionValue)?;
    if is_negative_number(value.body) {
        return Err((CertRule::ExtensionValue, value.at));
    }
    Ok(saturated_number(value.body))
}
