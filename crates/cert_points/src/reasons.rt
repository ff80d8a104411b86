//! Reasons of revocation that the lists of a point are about (RFC 5280, 4.2.1.13).

ghost use Rattle.std.specs.Prelude.{◌≡◌};
ghost use Rattle.asn.specs.Reading.{ReadsAs};
ghost use Rattle.cert_points.specs.ReasonFlags.{is_bit_string, reason_flags};

use asn::Tlv;
use cert::{CertRefusal, CertRule, bits_of};

/// Whether the octets are the contents of a BIT STRING: a count of unused bits, fewer than eight, which are zero (X.690, 8.6.2, 11.2.1).
fn is_of_bits(contents: &[u8]) -> bool
    ensures { result ≡ is_bit_string contents.now }
{
    match contents {
        [] => false,
        [unused] => *unused == 0,
        [unused, bits @ ..] => *unused < 8 && bits[bits.len() - 1] % (1u8 << *unused) == 0,
    }
}

/// ReasonFlags ::= BIT STRING { unused (0), keyCompromise (1), cACompromise (2), affiliationChanged (3), superseded (4),
/// cessationOfOperation (5), certificateHold (6), privilegeWithdrawn (7), aACompromise (8) }
///
/// The octets of the bits, under an implicit tag; else the fault, at the value, if its contents are not those of a BIT STRING. Bits may be
/// zero to the last one, and there may be none.
#[tactic(auto, unfolding(crate::specs::ReasonFlags::reason_flags, asn::specs::Walk::check_that))]
pub(crate) fn reasons_at<'a>(value: Tlv<'a>) -> Result<&'a [u8], CertRefusal>
    ensures { ReadsAs (λ bits. bits.now) result value.entry reason_flags }
{
    if is_of_bits(value.body) {
        Ok(bits_of(value.body))
    } else {
        Err((CertRule::ExtensionValue, value.at))
    }
}
