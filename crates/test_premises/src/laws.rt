//! Laws of examples.

ghost use Rattle.test_premises.specs.Premises.{AllPremisesHoldOfOctets};

/// All premises of agreement hold of two relying parties that the octets of two lists and a response reach in different ways, and both
/// find the path valid.
pub fn octet_laws()
    ensures all_hold { AllPremisesHoldOfOctets }
{}
