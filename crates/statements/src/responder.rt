//! Who signed a response (RFC 6960, 4.2.2.2).

ghost use Rattle.std.specs.Prelude.{◌≡◌, map};
ghost use Rattle.std.specs.List.{list_any};
ghost use Rattle.asn.specs.Oid.{oid_contents};
ghost use Rattle.cert.specs.Certificate.{seen_certificate};
ghost use Rattle.statements.specs.Responder.{is_signing, key_hash, may_respond};
ghost use Rattle.statements.specs.Seen.{answers_for, is_issued_seen, is_named_by_seen, signs_itself_seen, signs_seen};

use asn::Oid;
use cert::Certificate;
use path_verifiers::Verifier;
use sha1::Sha1;
use statements_ocsp::{ResponderId, Response};

/// id-kp-OCSPSigning, 1.3.6.1.5.5.7.3.9
const OCSP_SIGNING: &[u8] = b"\x2B\x06\x01\x05\x05\x07\x03\x09";

/// The SHA-1 of the octets of the certificate's key.
pub(crate) fn hash_of_key(certificate: &Certificate<'_>) -> [u8; 20]
    ensures { result ≡ key_hash (seen_certificate certificate.now) }
{
    Sha1::digest(certificate.subject_public_key_info.key.octets())
}

/// Whether the responder id names the certificate, by its subject or by the hash of its key (RFC 6960, 4.2.2.3). No memory is taken.
pub fn is_named_by(responder: &ResponderId<'_>, certificate: &Certificate<'_>) -> bool
    ensures { result ≡ is_named_by_seen responder.now certificate.now }
{
    match responder {
        ResponderId::ByName(name) => name.matches(&certificate.subject),
        ResponderId::ByKey(hash) => *hash == hash_of_key(certificate).as_slice(),
    }
}

/// Whether the response is signed under the certificate's key.
fn has_signed<V: Verifier>(
    verifier: &V,
    response: &Response<'_>,
    certificate: &Certificate<'_>,
) -> bool
    ensures { result ≡ signs_seen (V.accepts verifier.now) response.now certificate.now }
{
    let key_info = certificate.subject_public_key_info.value.whole;
    verifier.judge(
        response.algorithm.value.whole,
        key_info,
        response.tbs.whole,
        response.signature.octets(),
    )
}

/// Whether the response is signed by the issuer itself.
#[tactic(auto, unfolding(crate::specs::Responder::signs_itself))]
pub(crate) fn is_by_issuer<V: Verifier>(
    verifier: &V,
    issuer: &Certificate<'_>,
    response: &Response<'_>,
) -> bool
    ensures { result ≡ signs_itself_seen (V.accepts verifier.now) issuer.now response.now }
{
    is_named_by(&response.responder, issuer) && has_signed(verifier, response, issuer)
}

/// Whether the issuer issued the certificate.
fn is_of_issuer<V: Verifier>(
    verifier: &V,
    issuer: &Certificate<'_>,
    certificate: &Certificate<'_>,
) -> bool
    ensures { result ≡ is_issued_seen (V.accepts verifier.now) issuer.now certificate.now }
{
    let key_info = issuer.subject_public_key_info.value.whole;
    certificate.issuer.matches(&issuer.subject)
        && verifier.judge(
            certificate.algorithm.value.whole,
            key_info,
            certificate.tbs.whole,
            certificate.signature.octets(),
        )
}

/// Whether one of the purposes is to sign responses.
fn lists_signing(purposes: &[Oid<'_>]) -> bool
    ensures { result ≡ list_any is_signing (map oid_contents purposes.now) }
{
    purposes.iter().any(|purpose| purpose.is(OCSP_SIGNING))
}

/// Whether the extensions let the certificate's key sign responses (RFC 6960, 4.2.2.2). No memory is taken.
pub fn may_sign_responses(certificate: &Certificate<'_>) -> bool
    ensures { result ≡ may_respond (seen_certificate certificate.now) }
{
    let extensions = &certificate.extensions;
    lists_signing(&extensions.purposes)
        && extensions.no_check
        && !extensions.needs_policy_processing
        && extensions.unrecognised.is_empty()
}

/// Whether the certificate is that of a delegate of the issuer who signed the response.
#[tactic(auto, unfolding(crate::specs::Responder::is_responder))]
pub(crate) fn is_by_delegate<V: Verifier>(
    verifier: &V,
    issuer: &Certificate<'_>,
    response: &Response<'_>,
    delegate: &Certificate<'_>,
) -> bool
    ensures { result ≡ answers_for (V.accepts verifier.now) issuer.now response.now delegate.now }
{
    is_named_by(&response.responder, delegate)
        && is_of_issuer(verifier, issuer, delegate)
        && may_sign_responses(delegate)
        && has_signed(verifier, response, delegate)
}
