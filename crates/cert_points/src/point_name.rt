//! The name of a distribution point (RFC 5280, 4.2.1.13 and 5.2.5).

ghost use Rattle.asn.specs.Reading.{ReadsAs};
ghost use Rattle.cert_points.specs.PointName.{chosen_name, point_name, seen_point_name};

use crate::general_names::GeneralNames;
use crate::relative_name::check_relative_name;
use asn::Tlv;
use cert::{CertRefusal, CertRule};

/// DistributionPointName ::= CHOICE { fullName [0] GeneralNames, nameRelativeToCRLIssuer [1] RelativeDistinguishedName }
#[derive(Clone, Copy)]
pub enum PointName<'a> {
    /// fullName: names of the point, by each of which it is found.
    FullName(GeneralNames<'a>),
    /// nameRelativeToCRLIssuer: the attributes of one more RDN behind the name of the issuer.
    Relative,
}

impl<'a> PointName<'a> {
    /// The name that is chosen.
    #[tactic(auto, unfolding(crate::specs::PointName::chosen_name))]
    fn chosen(value: Tlv<'a>) -> Result<PointName<'a>, CertRefusal>
        ensures { ReadsAs seen_point_name result value.entry chosen_name }
    {
        if value.tag == 0xA0 {
            return Ok(PointName::FullName(GeneralNames::read(value)?));
        }
        check_relative_name(value)?;
        Ok(PointName::Relative)
    }

    /// Reads distributionPoint [0] DistributionPointName, whose tag is explicit since the name is a CHOICE (X.680, 31.2.7); else the first
    /// fault: `ExtensionValue` at a value with a wrong identifier or left over, or at the end of one that lacks a value, or `Name` in a
    /// general name. No memory is taken.
    #[tactic(auto, unfolding(crate::specs::PointName::point_name))]
    pub fn read(value: Tlv<'a>) -> Result<PointName<'a>, CertRefusal>
        ensures { ReadsAs seen_point_name result value.entry point_name }
    {
        value.is_a(0xA0, CertRule::ExtensionValue)?;
        let mut members = value.members();
        let choice = members.next_or(CertRule::ExtensionValue)?;
        let name = PointName::chosen(choice)?;
        members.ended(CertRule::ExtensionValue)?;
        Ok(name)
    }
}
