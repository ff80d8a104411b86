//! What the walks find, in the words of the standards.

ghost use Rattle.statements_ocsp.specs.Kind.{KindIsExact};
ghost use Rattle.statements_ocsp.specs.ResponseForms.{OcspResponseIsExact, OcspResponseIsUnique};
ghost use Rattle.statements_ocsp.specs.SingleForms.{SingleResponseIsExact};

/// Octets are read as a response exactly if they are one: DER with the layout of RFC 6960, 4.2.1, successful and of the type
/// id-pkix-ocsp-basic, with these fields, which are the only ones. A place is read as a single response exactly if it is one. Octets are
/// meant as a response exactly if they are DER, and the first value inside is an ENUMERATED.
pub fn response_laws()
    ensures exact { OcspResponseIsExact }
    ensures unique { OcspResponseIsUnique }
    ensures single { SingleResponseIsExact }
    ensures kind { KindIsExact }
{}
