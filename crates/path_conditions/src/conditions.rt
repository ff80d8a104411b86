//! Conditions on a certificate of a path that look at it alone (RFC 5280, 6.1.3 to 6.1.5).

ghost use Rattle.std.specs.Prelude.{◌≡◌, ◌↔◌, IsTrue, Some, MatchOption, map};
ghost use Rattle.std.specs.List.{list_all, list_any};
ghost use Rattle.std.specs.Str.{bytes_eq};
ghost use Rattle.asn.specs.Oid.{oid_contents};
ghost use Rattle.asn.specs.Reading.{seen, seen_tlv};
ghost use Rattle.cert.specs.Certificate.{seen_certificate};
ghost use Rattle.cert.specs.Extensions.{seen_extensions};
ghost use Rattle.cert.specs.KeyUsage.{seen_key_usage};
ghost use Rattle.cert_policies.specs.ProcessedPolicies.{ArePoliciesProcessed};
ghost use Rattle.path_conditions.specs.CertificateConditions.{HasBegun, HasNotExpired, IsCa, MaySignCertificates, NeedsNoPolicyTree, distribution_points, AreKnownInWide, CriticalExtensionsAreKnown, ListsPurpose, bits_for, has_one_of, GoesWithKeyUsage, AllowsAsked, lists_purpose, path_length_of};

use asn::{Oid, Tlv};
use cert::{Certificate, ExtensionKind, Extensions, KeyUsage, Version};
use cert_policies::are_policies_processed;
use statements_facts::Profile;

/// anyExtendedKeyUsage, 2.5.29.37.0
const ANY_PURPOSE: &[u8] = b"\x55\x1D\x25\x00";

/// cRLDistributionPoints, 2.5.29.31
const DISTRIBUTION_POINTS: &[u8] = b"\x55\x1D\x1F";

/// id-kp-serverAuth, 1.3.6.1.5.5.7.3.1
const SERVER_AUTH: &[u8] = b"\x2B\x06\x01\x05\x05\x07\x03\x01";

/// id-kp-clientAuth, 1.3.6.1.5.5.7.3.2
const CLIENT_AUTH: &[u8] = b"\x2B\x06\x01\x05\x05\x07\x03\x02";

/// id-kp-codeSigning, 1.3.6.1.5.5.7.3.3
const CODE_SIGNING: &[u8] = b"\x2B\x06\x01\x05\x05\x07\x03\x03";

/// id-kp-emailProtection, 1.3.6.1.5.5.7.3.4
const EMAIL_PROTECTION: &[u8] = b"\x2B\x06\x01\x05\x05\x07\x03\x04";

/// id-kp-timeStamping, 1.3.6.1.5.5.7.3.8
const TIME_STAMPING: &[u8] = b"\x2B\x06\x01\x05\x05\x07\x03\x08";

/// id-kp-OCSPSigning, 1.3.6.1.5.5.7.3.9
const OCSP_SIGNING: &[u8] = b"\x2B\x06\x01\x05\x05\x07\x03\x09";

/// The bit of keyUsage that lets a key sign certificates.
const KEY_CERT_SIGN: u8 = 5;

/// Whether the moment, in seconds from 1970-01-01T00:00:00Z, is not before notBefore (RFC 5280, 6.1.3 (a) (2)).
pub fn has_begun(certificate: &Certificate<'_>, moment: i64) -> bool
    ensures { IsTrue result ↔ HasBegun (seen_certificate certificate.now) moment }
{
    certificate.validity.not_before <= moment
}

/// Whether the moment, in seconds from 1970-01-01T00:00:00Z, is not after notAfter (RFC 5280, 6.1.3 (a) (2)).
pub fn has_not_expired(certificate: &Certificate<'_>, moment: i64) -> bool
    ensures { IsTrue result ↔ HasNotExpired (seen_certificate certificate.now) moment }
{
    moment <= certificate.validity.not_after
}

/// Whether the version is 3, and basicConstraints has cA (RFC 5280, 6.1.4 (k)).
pub fn is_ca(certificate: &Certificate<'_>) -> bool
    ensures { IsTrue result ↔ IsCa (seen_certificate certificate.now) }
{
    match certificate.extensions.basic_constraints {
        None => false,
        Some(constraints) => certificate.version == Version::V3 && constraints.ca,
    }
}

/// The path length in basicConstraints, if it is there (RFC 5280, 4.2.1.9).
pub fn path_length(certificate: &Certificate<'_>) -> Option<u32>
    ensures { result ≡ path_length_of (seen_certificate certificate.now) }
{
    certificate.extensions.basic_constraints?.path_length
}

/// Whether there is no keyUsage, or it has keyCertSign (RFC 5280, 6.1.4 (n)).
pub fn may_sign_certificates(certificate: &Certificate<'_>) -> bool
    ensures { IsTrue result ↔ MaySignCertificates (seen_certificate certificate.now) }
{
    match certificate.extensions.key_usage {
        None => true,
        Some(usage) => usage.has(KEY_CERT_SIGN),
    }
}

/// Whether no extension needs a policy tree, which is not built (RFC 5280, 6.1.3 (d) to (f)).
pub fn needs_no_policy_tree(certificate: &Certificate<'_>) -> bool
    ensures { IsTrue result ↔ NeedsNoPolicyTree (seen_certificate certificate.now) }
{
    !certificate.extensions.needs_policy_processing
}

/// Whether each of the types is that of cRLDistributionPoints.
fn are_distribution_points(types: &[Oid<'_>]) -> bool
    ensures { result ≡ list_all (λ type. bytes_eq type distribution_points)
        (map oid_contents types.now) }
{
    types.iter().all(|one| one.is(DISTRIBUTION_POINTS))
}

/// Whether certificatePolicies, if it is there, is processed.
fn has_processed_policies(policies: Option<Tlv<'_>>) -> bool
    ensures { IsTrue result ↔ MatchOption (seen seen_tlv policies.entry) (Unit {0})
        ArePoliciesProcessed }
{
    match policies {
        None => true,
        Some(octet_string) => are_policies_processed(octet_string),
    }
}

/// Whether each critical extension is recognised in the wide profile.
fn are_known_in_wide(extensions: &Extensions<'_>) -> bool
    ensures { IsTrue result ↔ AreKnownInWide (seen_extensions extensions.now) }
{
    are_distribution_points(&extensions.unrecognised)
        && (!extensions.critical_policies
            || has_processed_policies(extensions.values.of(ExtensionKind::Policies)))
}

/// Whether each critical extension is recognised (RFC 5280, 6.1.4 (o), 6.1.5 (f)). The wide profile recognises cRLDistributionPoints too, and
/// asks of a critical certificatePolicies that it is processed, as `are_policies_processed` has it (4.2, 4.2.1.4).
pub fn are_critical_extensions_known(profile: Profile, certificate: &Certificate<'_>) -> bool
    ensures { IsTrue result
        ↔ CriticalExtensionsAreKnown profile (seen_certificate certificate.now) }
{
    match profile {
        Profile::Stated => certificate.extensions.unrecognised.is_empty(),
        Profile::Wide => are_known_in_wide(&certificate.extensions),
    }
}

/// Whether the purpose has these contents, or stands for any.
fn is_purpose(listed: &Oid<'_>, purpose: &[u8]) -> bool
    ensures { result ≡ lists_purpose purpose.now (oid_contents listed.now) }
{
    listed.is(purpose) || listed.is(ANY_PURPOSE)
}

/// Whether one of them is the purpose, or stands for any.
fn lists(listed: &[Oid<'_>], purpose: &[u8]) -> bool
    ensures { result ≡ list_any (lists_purpose purpose.now) (map oid_contents listed.now) }
{
    listed.iter().any(|listed| is_purpose(listed, purpose))
}

/// Whether there is no extKeyUsage, or it lists the purpose or anyExtendedKeyUsage.
fn is_listed(certificate: &Certificate<'_>, purpose: &[u8]) -> bool
    ensures { IsTrue result ↔ ListsPurpose (seen_certificate certificate.now) (Some purpose.now) }
{
    let listed = &certificate.extensions.purposes;
    listed.is_empty() || lists(listed, purpose)
}

/// The bits of keyUsage that may go with the purpose; none if nothing is said of it.
fn bits_for(purpose: &[u8]) -> &'static [u8]
    ensures { result.now ≡ bits_for purpose.now }
{
    if purpose == SERVER_AUTH {
        &[0, 2, 4]
    } else if purpose == CLIENT_AUTH {
        &[0, 4]
    } else if purpose == CODE_SIGNING {
        &[0]
    } else if purpose == EMAIL_PROTECTION {
        &[0, 1, 2, 4]
    } else if purpose == TIME_STAMPING || purpose == OCSP_SIGNING {
        &[0, 1]
    } else {
        &[]
    }
}

/// Whether one of the bits is set, or none is wanted.
fn has_one_of(wanted: &[u8], usage: &KeyUsage<'_>) -> bool
    ensures { result ≡ has_one_of wanted.now (seen_key_usage usage.now) }
{
    wanted.is_empty() || wanted.iter().any(|bit| usage.has(*bit))
}

/// Whether there is no keyUsage, or it has one of the bits that go with the purpose.
fn goes_with_key_usage(certificate: &Certificate<'_>, purpose: &[u8]) -> bool
    ensures { IsTrue result
        ↔ GoesWithKeyUsage (seen_certificate certificate.now) (Some purpose.now) }
{
    match certificate.extensions.key_usage {
        None => true,
        Some(usage) => has_one_of(bits_for(purpose), &usage),
    }
}

/// Whether no purpose is asked for, or there is no extKeyUsage, or it lists the purpose or anyExtendedKeyUsage (RFC 5280, 4.2.1.12). In the wide
/// profile keyUsage, if it is there, also has one of the bits that the standard names for serverAuth, clientAuth, codeSigning,
/// emailProtection, timeStamping or OCSPSigning, if that is the purpose.
pub fn allows_purpose(
    profile: Profile,
    certificate: &Certificate<'_>,
    purpose: Option<&[u8]>,
) -> bool
    ensures { IsTrue result
        ↔ AllowsAsked profile (seen_certificate certificate.now) purpose.entry }
{
    let Some(purpose) = purpose else {
        return true;
    };
    match profile {
        Profile::Stated => is_listed(certificate, purpose),
        Profile::Wide => {
            is_listed(certificate, purpose) && goes_with_key_usage(certificate, purpose)
        }
    }
}
