//! What the walks of the layouts find, in the words of the standard.

ghost use Rattle.cert.specs.AlgorithmIdentifier.{AlgorithmIdentifierIsExact, AlgorithmIdentifierHasLayout};
ghost use Rattle.cert.specs.Validity.{ValidityIsExact, ValidityHasLayout};
ghost use Rattle.cert.specs.Extension.{ExtensionIsExact, ExtensionHasLayout};
ghost use Rattle.cert.specs.KeyUsage.{KeyUsageIsExact};
ghost use Rattle.cert.specs.BasicConstraints.{BasicConstraintsAreExact};
ghost use Rattle.cert.specs.Purposes.{PurposesAreExact};
ghost use Rattle.cert.specs.AlternativeNames.{AlternativeNamesAreExact};
ghost use Rattle.cert.specs.NameConstraints.{NameConstraintsAreExact};
ghost use Rattle.cert.specs.SubjectPublicKeyInfo.{SubjectPublicKeyInfoIsExact};
ghost use Rattle.cert.specs.CertificateForms.{CertificateIsExact, CertificateIsUnique};
ghost use Rattle.cert.specs.ExtensionFields.{ExtensionsAreByField};

/// A place is read as a part of a certificate exactly if it is one, and the encoding of a value exactly if the value has the layout; the
/// fields are the parts of these octets that the layout names. The contents of an OCTET STRING are read as the value of an extension
/// exactly if they are one.
pub fn layout_laws()
    ensures algorithm { AlgorithmIdentifierIsExact }
    ensures algorithm_value { AlgorithmIdentifierHasLayout }
    ensures validity { ValidityIsExact }
    ensures validity_value { ValidityHasLayout }
    ensures extension { ExtensionIsExact }
    ensures extension_value { ExtensionHasLayout }
    ensures key_usage { KeyUsageIsExact }
    ensures basic_constraints { BasicConstraintsAreExact }
    ensures purposes { PurposesAreExact }
    ensures alternative_names { AlternativeNamesAreExact }
    ensures name_constraints { NameConstraintsAreExact }
    ensures key_info { SubjectPublicKeyInfoIsExact }
{}

/// Octets are read as a certificate exactly if they are one: DER with the layout of RFC 5280, 4.1, and these fields, which are the only
/// ones. Each field of its extensions is what the extension of its type says, by the types of RFC 5280, 4.2.1.
pub fn certificate_laws()
    ensures exact { CertificateIsExact }
    ensures unique { CertificateIsUnique }
    ensures by_field { ExtensionsAreByField }
{}
