//! Whether a value is meant as a response or as a revocation list.

ghost use Rattle.std.specs.Prelude.{◌≡◌};
ghost use Rattle.asn.specs.Reading.{seen_tlv};
ghost use Rattle.statements_ocsp.specs.Kind.{is_response};

use asn::{ENUMERATED, Tlv};

/// Whether the first value inside is an ENUMERATED, as the status of a response is; a revocation list begins with its signed part. No
/// memory is taken.
#[tactic(auto, unfolding(crate::specs::Kind::is_response))]
pub fn is_response(value: Tlv<'_>) -> bool
    ensures kind { result ≡ is_response (seen_tlv value.entry) }
{
    value
        .inside()
        .is_some_and(|members| members.begins(ENUMERATED))
}
