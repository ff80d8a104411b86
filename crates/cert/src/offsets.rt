//! The offset of a fault lies at one of the octets, or at their end.

ghost use Rattle.cert.specs.Offsets.{NameFaultIsWithin, GeneralNameFaultIsWithin, SubtreeFaultIsWithin, CertificateFaultIsWithin, ExtensionValuesStand};

/// The offset of a certificate's fault is at most the length of its octets. That of a name, of a general name or of the base of a subtree
/// inside some text is at most the length of the text. The values of a certificate's extensions stand in its octets.
pub fn offset_laws()
    ensures name { NameFaultIsWithin }
    ensures general { GeneralNameFaultIsWithin }
    ensures subtree { SubtreeFaultIsWithin }
    ensures certificate { CertificateFaultIsWithin }
    ensures values { ExtensionValuesStand }
{}
