//! Which extensions are known, by the contents of their OBJECT IDENTIFIERs.

ghost use Rattle.std.specs.Prelude.{◌≡◌};
ghost use Rattle.cert.specs.Extensions.{certificate_extension, is_policies, is_recognised, kind_of_extension};

/// What an extension is about.
#[derive(Clone, Copy, Debug, PartialEq, Eq)]
pub enum ExtensionKind {
    /// keyUsage (RFC 5280, 4.2.1.3).
    KeyUsage,
    /// subjectAltName (4.2.1.6).
    AlternativeNames,
    /// basicConstraints (4.2.1.9).
    BasicConstraints,
    /// nameConstraints (4.2.1.10).
    NameConstraints,
    /// extKeyUsage (4.2.1.12).
    Purposes,
    /// cRLDistributionPoints (4.2.1.13).
    DistributionPoints,
    /// certificatePolicies (4.2.1.4).
    Policies,
    /// policyMappings (4.2.1.5).
    PolicyMappings,
    /// policyConstraints (4.2.1.11).
    PolicyConstraints,
    /// inhibitAnyPolicy (4.2.1.14).
    InhibitAnyPolicy,
    /// id-pkix-ocsp-nocheck (RFC 6960, 4.2.2.2.1).
    NoCheck,
    /// Another.
    Other,
}

/// id-pkix-ocsp-nocheck: 1.3.6.1.5.5.7.48.1.5
const NO_CHECK: &[u8] = &[0x2B, 0x06, 0x01, 0x05, 0x05, 0x07, 0x30, 0x01, 0x05];

/// The last number of an OBJECT IDENTIFIER under id-ce, 2.5.29 (RFC 5280, 4.2.1), from its contents; `None` for any other.
#[tactic(auto, unfolding(crate::specs::Extensions::certificate_extension))]
pub fn certificate_extension_number(oid: &[u8]) -> Option<u8>
    ensures { result ≡ certificate_extension oid.now }
{
    match oid {
        [0x55, 0x1D, number] => Some(*number),
        _ => None,
    }
}

impl ExtensionKind {
    /// The kind of the extensions of the type with these contents.
    #[tactic(auto, unfolding(crate::specs::Extensions::kind_of_extension))]
    pub fn of(oid: &[u8]) -> ExtensionKind
        ensures { result ≡ kind_of_extension oid.now }
    {
        match certificate_extension_number(oid) {
            Some(15) => ExtensionKind::KeyUsage,
            Some(17) => ExtensionKind::AlternativeNames,
            Some(19) => ExtensionKind::BasicConstraints,
            Some(30) => ExtensionKind::NameConstraints,
            Some(31) => ExtensionKind::DistributionPoints,
            Some(32) => ExtensionKind::Policies,
            Some(33) => ExtensionKind::PolicyMappings,
            Some(36) => ExtensionKind::PolicyConstraints,
            Some(37) => ExtensionKind::Purposes,
            Some(54) => ExtensionKind::InhibitAnyPolicy,
            Some(_) => ExtensionKind::Other,
            None if oid == NO_CHECK => ExtensionKind::NoCheck,
            None => ExtensionKind::Other,
        }
    }

    /// Whether these are certificatePolicies.
    pub(crate) fn is_policies(self) -> bool
        ensures { result ≡ is_policies self }
    {
        matches!(self, ExtensionKind::Policies)
    }

    /// Whether validation of a path handles such extensions; a certificate of a path with another critical one is refused.
    pub fn is_recognised(self) -> bool
        ensures { result ≡ is_recognised self }
    {
        !matches!(
            self,
            ExtensionKind::DistributionPoints | ExtensionKind::NoCheck | ExtensionKind::Other
        )
    }
}
