//! What a certificate of a path meets alone, and with the one that issued it (RFC 5280, 6.1.3 to 6.1.5).

ghost use Rattle.std.specs.Prelude.{◌↔◌, IsTrue};
ghost use Rattle.std.specs.Option.{option_copied};
ghost use Rattle.cert.specs.Certificate.{seen_certificate};
ghost use Rattle.path_issuers.specs.Factors.{Issues, IsRightAlone, IsRightAsAuthority, IsRightAsTarget};

use cert::Certificate;
use path::Options;
use path_conditions::{
    allows_purpose, are_critical_extensions_known, has_begun, has_not_expired, is_ca,
    may_sign_certificates, needs_no_policy_tree,
};
use path_verifiers::Verifier;

/// Whether the certificate may stand in a path, by itself.
fn is_right_alone(certificate: &Certificate<'_>, moment: i64, options: Options) -> bool
    ensures { IsTrue result ↔ IsRightAlone options moment (seen_certificate certificate.now) }
{
    has_begun(certificate, moment)
        && has_not_expired(certificate, moment)
        && needs_no_policy_tree(certificate)
        && are_critical_extensions_known(options.profile, certificate)
}

/// Whether the certificate may stand at the end of a path, by itself.
pub fn is_right_as_target(
    certificate: &Certificate<'_>,
    moment: i64,
    purpose: Option<&[u8]>,
    options: Options,
) -> bool
    ensures { IsTrue result
        ↔ IsRightAsTarget options moment (option_copied purpose.entry)
        (seen_certificate certificate.now) }
{
    is_right_alone(certificate, moment, options)
        && allows_purpose(options.profile, certificate, purpose)
}

/// Whether the certificate may stand above others in a path, by itself.
pub fn is_right_as_authority(certificate: &Certificate<'_>, moment: i64, options: Options) -> bool
    ensures { IsTrue result
        ↔ IsRightAsAuthority options moment (seen_certificate certificate.now) }
{
    is_right_alone(certificate, moment, options)
        && is_ca(certificate)
        && may_sign_certificates(certificate)
}

/// Whether the first certificate issued the second: it has the name of the issuer, and its key accepts the signature (RFC 5280, 6.1.3 (a)
/// (1), (4)). The verifier is asked only if the names match.
pub fn issues<V: Verifier>(
    verifier: &V,
    issuer: &Certificate<'_>,
    certificate: &Certificate<'_>,
) -> bool
    ensures { IsTrue result
        ↔ Issues (V.accepts verifier.now) (seen_certificate issuer.now)
        (seen_certificate certificate.now) }
{
    certificate.issuer.matches(&issuer.subject)
        && verifier.judge(
            certificate.algorithm.value.whole,
            issuer.subject_public_key_info.value.whole,
            certificate.tbs.whole,
            certificate.signature.octets(),
        )
}
