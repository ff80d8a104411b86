//! The values of the extensions of a certificate (RFC 5280, 4.2).

ghost use Rattle.std.specs.Prelude.{◌≡◌};
ghost use Rattle.asn.specs.Reading.{seen, seen_tlv};
ghost use Rattle.cert.specs.ExtensionValues.{kept, no_values, seen_values, value_of};

use crate::extension_kind::ExtensionKind;
use asn::Tlv;

/// The OCTET STRING of each extension whose kind has one type, if it is there. No two extensions of a certificate are of one type.
#[derive(Clone, Copy)]
pub struct ExtensionValues<'a> {
    key_usage: Option<Tlv<'a>>,
    alternative_names: Option<Tlv<'a>>,
    basic_constraints: Option<Tlv<'a>>,
    name_constraints: Option<Tlv<'a>>,
    distribution_points: Option<Tlv<'a>>,
    policies: Option<Tlv<'a>>,
    policy_mappings: Option<Tlv<'a>>,
    policy_constraints: Option<Tlv<'a>>,
    purposes: Option<Tlv<'a>>,
    inhibit_any_policy: Option<Tlv<'a>>,
}

impl<'a> ExtensionValues<'a> {
    /// Those of no extensions.
    pub(crate) fn none() -> ExtensionValues<'a>
        ensures { seen_values result ≡ no_values }
    {
        ExtensionValues {
            key_usage: None,
            alternative_names: None,
            basic_constraints: None,
            name_constraints: None,
            distribution_points: None,
            policies: None,
            policy_mappings: None,
            policy_constraints: None,
            purposes: None,
            inhibit_any_policy: None,
        }
    }

    /// Keeps the OCTET STRING of an extension of that kind.
    pub(crate) fn keep(&mut self, kind: ExtensionKind, value: Tlv<'a>)
        ensures { seen_values self.new ≡ kept kind (seen_tlv value.entry) (seen_values self.old) }
    {
        match kind {
            ExtensionKind::KeyUsage => self.key_usage = Some(value),
            ExtensionKind::AlternativeNames => self.alternative_names = Some(value),
            ExtensionKind::BasicConstraints => self.basic_constraints = Some(value),
            ExtensionKind::NameConstraints => self.name_constraints = Some(value),
            ExtensionKind::DistributionPoints => self.distribution_points = Some(value),
            ExtensionKind::Policies => self.policies = Some(value),
            ExtensionKind::PolicyMappings => self.policy_mappings = Some(value),
            ExtensionKind::PolicyConstraints => self.policy_constraints = Some(value),
            ExtensionKind::Purposes => self.purposes = Some(value),
            ExtensionKind::InhibitAnyPolicy => self.inhibit_any_policy = Some(value),
            ExtensionKind::NoCheck | ExtensionKind::Other => {}
        }
    }

    /// The OCTET STRING of the extension of that kind; `None` without one, and for kinds that have no type of their own or whose value says
    /// nothing.
    pub fn of(&self, kind: ExtensionKind) -> Option<Tlv<'a>>
        ensures { seen seen_tlv result ≡ value_of kind (seen_values self.now) }
    {
        match kind {
            ExtensionKind::KeyUsage => self.key_usage,
            ExtensionKind::AlternativeNames => self.alternative_names,
            ExtensionKind::BasicConstraints => self.basic_constraints,
            ExtensionKind::NameConstraints => self.name_constraints,
            ExtensionKind::DistributionPoints => self.distribution_points,
            ExtensionKind::Policies => self.policies,
            ExtensionKind::PolicyMappings => self.policy_mappings,
            ExtensionKind::PolicyConstraints => self.policy_constraints,
            ExtensionKind::Purposes => self.purposes,
            ExtensionKind::InhibitAnyPolicy => self.inhibit_any_policy,
            ExtensionKind::NoCheck | ExtensionKind::Other => None,
        }
    }
}
