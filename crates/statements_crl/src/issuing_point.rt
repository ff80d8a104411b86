//! Where a list is published, and which certificates of its issuer it is about (RFC 5280, 5.2.5).

ghost use Rattle.std.specs.Prelude.{◌≡◌};
ghost use Rattle.asn.specs.Reading.{left, seen, seen_tlv, ReadsAs};
ghost use Rattle.cert_points.specs.GeneralNames.{seen_general_names};
ghost use Rattle.statements_crl.specs.IssuingPoint.{full_names, issuing_point, published, published_in, scope_of_flag, scope_of_flags, seen_issuing_point};

use crate::issuer_scope::scope_of;
use asn::{Cursor, SEQUENCE, Tlv};
use cert::{CertRefusal, CertRule};
use cert_points::{GeneralNames, PointName};
use statements_facts::{Profile, Scope};

/// onlyContainsUserCerts [1] TRUE
const ONLY_USERS: &[u8] = &[0x81, 0x01, 0xFF];

/// onlyContainsCACerts [2] TRUE
const ONLY_AUTHORITIES: &[u8] = &[0x82, 0x01, 0xFF];

/// What an issuingDistributionPoint says that is served.
#[derive(Clone, Copy)]
pub(crate) struct IssuingPoint<'a> {
    pub(crate) scope: Scope,
    /// The names of the point; `None` for a whole list.
    pub(crate) points: Option<GeneralNames<'a>>,
}

/// The scope of a list with this flag; `None` for any other value.
#[tactic(auto, unfolding(crate::specs::IssuingPoint::scope_of_flag))]
fn scope_by_flag(octets: &[u8]) -> Option<Scope>
    ensures { result ≡ scope_of_flag octets.now }
{
    if octets == ONLY_USERS {
        Some(Scope::User)
    } else if octets == ONLY_AUTHORITIES {
        Some(Scope::Ca)
    } else {
        None
    }
}

/// The scope of a list with these values behind the name of the point: one of the two flags, or nothing.
fn scope_by_flags(members: Cursor<'_>) -> Option<Scope>
    ensures { result ≡ scope_of_flags (left members.entry).values }
{
    let mut members = members;
    let Some(flag) = members.next() else {
        return Some(Scope::All);
    };
    match members.next() {
        Some(_) => None,
        None => scope_by_flag(flag.whole),
    }
}

/// distributionPoint [0] DistributionPointName, which has to be a full name.
#[tactic(auto, unfolding(crate::specs::IssuingPoint::full_names))]
fn full_names_at(value: Tlv<'_>) -> Result<GeneralNames<'_>, CertRefusal>
    ensures { ReadsAs seen_general_names result value.entry full_names }
{
    match PointName::read(value)? {
        PointName::FullName(names) => Ok(names),
        PointName::Relative => Err((CertRule::ExtensionValue, value.at)),
    }
}

impl<'a> IssuingPoint<'a> {
    /// IssuingDistributionPoint ::= SEQUENCE { distributionPoint [0], onlyContainsUserCerts [1], onlyContainsCACerts [2], .. }, of which
    /// the name is there, at most one of the two flags, and nothing else.
    #[tactic(auto, unfolding(crate::specs::IssuingPoint::published))]
    fn published(value: Tlv<'a>) -> Result<IssuingPoint<'a>, CertRefusal>
        ensures { ReadsAs seen_issuing_point result value.entry published }
    {
        value.is_a(SEQUENCE, CertRule::ExtensionValue)?;
        let mut members = value.members();
        let name = members.next_or(CertRule::ExtensionValue)?;
        let names = full_names_at(name)?;
        match scope_by_flags(members) {
            Some(scope) => Ok(IssuingPoint {
                scope,
                points: Some(names),
            }),
            None => Err((CertRule::ExtensionValue, value.at)),
        }
    }

    /// The same, inside the OCTET STRING of the extension; `None` for another value.
    #[tactic(auto, unfolding(crate::specs::IssuingPoint::published_in))]
    fn published_in(octet_string: Tlv<'a>) -> Option<IssuingPoint<'a>>
        ensures { seen seen_issuing_point result ≡ published_in (seen_tlv octet_string.entry) }
    {
        let Ok(value) = octet_string.nested() else {
            return None;
        };
        match IssuingPoint::published(value) {
            Ok(point) => Some(point),
            Err(_) => None,
        }
    }

    /// What the OCTET STRING of an issuingDistributionPoint says; `None` if the profile does not serve it.
    pub(crate) fn read(profile: Profile, octet_string: Tlv<'a>) -> Option<IssuingPoint<'a>>
        ensures { seen seen_issuing_point result
            ≡ issuing_point profile (seen_tlv octet_string.entry) }
    {
        if let Some(scope) = scope_of(octet_string.body) {
            return Some(IssuingPoint {
                scope,
                points: None,
            });
        }
        match profile {
            Profile::Stated => None,
            Profile::Wide => IssuingPoint::published_in(octet_string),
        }
    }
}
