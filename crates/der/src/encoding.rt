//! What the definitions of the encoding determine.

ghost use Rattle.der.specs.Laws.{OneEncoding, OneValue, OneFault, EncodedOrRefused};

/// A value has at most one encoding; no encoding begins another, and octets are the encoding of at most one value; octets
/// have at most one first fault, rule and place both; and octets either encode a value or have a first fault, never both.
pub fn encoding_laws()
    ensures encoding { OneEncoding }
    ensures value { OneValue }
    ensures fault { OneFault }
    ensures decided { EncodedOrRefused }
{}
