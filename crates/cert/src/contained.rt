//! The value that the OCTET STRING of an extension holds (RFC 5280, 4.2).

ghost use Rattle.asn.specs.Reading.{seen_tlv, Gives};
ghost use Rattle.asn.specs.Outermost.{nested};
ghost use Rattle.cert.specs.Fault.{as_der};

use crate::fault::{CertRefusal, CertRule};
use asn::Tlv;

/// The one value that the contents are the encoding of; else the first fault in them, as `Der`, with its offset in the text
/// handed to `asn::whole`.
pub fn contained_value(octet_string: Tlv<'_>) -> Result<Tlv<'_>, CertRefusal>
    ensures { Gives seen_tlv result (as_der (nested (seen_tlv octet_string.entry))) }
{
    match octet_string.nested() {
        Ok(value) => Ok(value),
        Err((rule, at)) => Err((CertRule::Der(rule), at)),
    }
}
