//! What the walks find, in the words of the standard.

ghost use Rattle.statements_crl.specs.EntryForms.{EntryIsExact};
ghost use Rattle.statements_crl.specs.ListForms.{CertificateListIsExact, CertificateListIsExactUnder, CertificateListIsUnique, CertificateListIsUniqueUnder, IssuingPointIsExact, StatedListsAreReadWide, StatedListsAreWhole};

/// Octets are read as a list exactly if they are one: DER with the layout of RFC 5280, 5.1 to 5.3, and these fields, which are the only
/// ones. A place is read as an entry exactly if it is one.
pub fn list_laws()
    ensures exact { CertificateListIsExact }
    ensures unique { CertificateListIsUnique }
    ensures entry { EntryIsExact }
{}

/// The same in either profile; what an issuingDistributionPoint is read as in one is what it says. A list of the stated profile has no
/// points, and is read as the same in the wide one.
pub fn profile_laws()
    ensures exact { (profile : _) → CertificateListIsExactUnder profile }
    ensures unique { (profile : _) → CertificateListIsUniqueUnder profile }
    ensures issuing_point { IssuingPointIsExact }
    ensures whole { StatedListsAreWhole }
    ensures wide { StatedListsAreReadWide }
{}
