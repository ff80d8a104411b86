//! One distribution point (RFC 5280, 4.2.1.13).

ghost use Rattle.std.specs.Prelude.{◌≡◌};
ghost use Rattle.asn.specs.Reading.{seen, ReadsAs, StepGives};
ghost use Rattle.cert_points.specs.GeneralNames.{general_names, seen_general_names};
ghost use Rattle.cert_points.specs.PointName.{point_name, seen_point_name};
ghost use Rattle.cert_points.specs.ReasonFlags.{reason_flags};
ghost use Rattle.cert_points.specs.DistributionPoint.{read_optional, point_members, is_told, distribution_point, seen_point};
ghost use Rattle.cert_points.specs.CompleteNames.{names_if_any, complete_names_of};
ghost use Rattle.cert_points.specs.LimitedNames.{limited_names_of};

use crate::general_names::GeneralNames;
use crate::point_name::PointName;
use crate::reasons::reasons_at;
use asn::{Cursor, SEQUENCE, Tlv};
use cert::{CertRefusal, CertRule};

/// DistributionPoint ::= SEQUENCE { distributionPoint [0] DistributionPointName OPTIONAL, reasons [1] ReasonFlags OPTIONAL, cRLIssuer [2]
/// GeneralNames OPTIONAL }
#[derive(Clone, Copy)]
pub struct DistributionPoint<'a> {
    /// distributionPoint. There is one, or `issuer`.
    pub name: Option<PointName<'a>>,
    /// reasons: the octets of the bits. Without them the lists of the point are about all reasons.
    pub reasons: Option<&'a [u8]>,
    /// cRLIssuer: who signs the lists of the point, if that is not the issuer of the certificate.
    pub issuer: Option<GeneralNames<'a>>,
}

/// distributionPoint [0] DistributionPointName OPTIONAL
#[tactic(auto, unfolding(crate::specs::DistributionPoint::read_optional))]
fn take_name<'a>(members: &mut Cursor<'a>) -> Result<Option<PointName<'a>>, CertRefusal>
    ensures { StepGives (seen seen_point_name) result members.old members.new
        (read_optional 0xA0 point_name) }
{
    match members.optional(0xA0) {
        None => Ok(None),
        Some(value) => Ok(Some(PointName::read(value)?)),
    }
}

/// reasons [1] ReasonFlags OPTIONAL
#[tactic(auto, unfolding(crate::specs::DistributionPoint::read_optional))]
fn take_reasons<'a>(members: &mut Cursor<'a>) -> Result<Option<&'a [u8]>, CertRefusal>
    ensures { StepGives (seen (λ bits. bits.now)) result members.old members.new
        (read_optional 0x81 reason_flags) }
{
    match members.optional(0x81) {
        None => Ok(None),
        Some(value) => Ok(Some(reasons_at(value)?)),
    }
}

/// cRLIssuer [2] GeneralNames OPTIONAL
#[tactic(auto, unfolding(crate::specs::DistributionPoint::read_optional))]
fn take_issuer<'a>(members: &mut Cursor<'a>) -> Result<Option<GeneralNames<'a>>, CertRefusal>
    ensures { StepGives (seen seen_general_names) result members.old members.new
        (read_optional 0xA2 general_names) }
{
    match members.optional(0xA2) {
        None => Ok(None),
        Some(value) => Ok(Some(GeneralNames::read(value)?)),
    }
}

impl<'a> DistributionPoint<'a> {
    /// The values of a point, whatever is among them.
    #[tactic(auto, unfolding(crate::specs::DistributionPoint::point_members))]
    fn of_members(value: Tlv<'a>) -> Result<DistributionPoint<'a>, CertRefusal>
        ensures { ReadsAs seen_point result value.entry point_members }
    {
        value.is_a(SEQUENCE, CertRule::ExtensionValue)?;
        let mut members = value.members();
        let name = take_name(&mut members)?;
        let reasons = take_reasons(&mut members)?;
        let issuer = take_issuer(&mut members)?;
        members.ended(CertRule::ExtensionValue)?;
        Ok(DistributionPoint {
            name,
            reasons,
            issuer,
        })
    }

    /// Whether the point has a name or an issuer.
    fn is_told(&self) -> bool
        ensures { result ≡ is_told (seen_point self.now) }
    {
        self.name.is_some() || self.issuer.is_some()
    }

    /// Reads a point; else the first fault: `ExtensionValue` at a value with a wrong identifier or left over, at the end of one that lacks
    /// a value, at reasons that are no BIT STRING, or at the point if it has neither a name nor an issuer, or `Name` in a general name. No
    /// memory is taken.
    #[tactic(auto, unfolding(crate::specs::DistributionPoint::distribution_point, asn::specs::Walk::check_that))]
    pub fn read(value: Tlv<'a>) -> Result<DistributionPoint<'a>, CertRefusal>
        ensures { ReadsAs seen_point result value.entry distribution_point }
    {
        let point = DistributionPoint::of_members(value)?;
        if point.is_told() {
            Ok(point)
        } else {
            Err((CertRule::ExtensionValue, value.at))
        }
    }

    /// The names of the point, if lists of the certificate's issuer about all reasons are published there: its full name, without reasons
    /// and without cRLIssuer.
    pub fn complete_names(&self) -> Option<GeneralNames<'a>>
        ensures { names_if_any result ≡ complete_names_of (seen_point self.now) }
    {
        match (self.name, self.reasons, self.issuer) {
            (Some(PointName::FullName(names)), None, None) => Some(names),
            _ => None,
        }
    }

    /// The names of the point, if it has reasons or cRLIssuer: its full name.
    pub fn limited_names(&self) -> Option<GeneralNames<'a>>
        ensures { names_if_any result ≡ limited_names_of (seen_point self.now) }
    {
        match (self.name, self.reasons, self.issuer) {
            (Some(PointName::FullName(_)), None, None) => None,
            (Some(PointName::FullName(names)), _, _) => Some(names),
            _ => None,
        }
    }
}
