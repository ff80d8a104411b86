//! keyUsage: what the key of a certificate may be used for (RFC 5280, 4.2.1.3).

ghost use Rattle.std.specs.Prelude.{◌≡◌};
ghost use Rattle.asn.specs.Reading.{seen_tlv, Gives};
ghost use Rattle.cert.specs.KeyUsage.{has_bit, key_usage, seen_key_usage};

use crate::bit_string::bits_of;
use crate::contained::contained_value;
use crate::fault::{CertRefusal, CertRule};
use asn::{BIT_STRING, Tlv};

/// KeyUsage ::= BIT STRING { digitalSignature (0), nonRepudiation (1), keyEncipherment (2), dataEncipherment (3),
/// keyAgreement (4), keyCertSign (5), cRLSign (6), encipherOnly (7), decipherOnly (8) }
#[derive(Clone, Copy)]
pub struct KeyUsage<'a> {
    /// The octets of the bits, without the count of unused bits.
    pub bits: &'a [u8],
}

impl<'a> KeyUsage<'a> {
    /// Reads the key usage in the OCTET STRING; else the first fault: `Der` in its contents, or `ExtensionValue` at a value that is no BIT
    /// STRING. Bits may be zero to the last one, and there may be none.
    #[tactic(auto, unfolding(crate::specs::KeyUsage::key_usage))]
    pub fn read(octet_string: Tlv<'a>) -> Result<KeyUsage<'a>, CertRefusal>
        ensures { Gives seen_key_usage result (key_usage (seen_tlv octet_string.entry)) }
    {
        let value = contained_value(octet_string)?;
        value.is_a(BIT_STRING, CertRule::ExtensionValue)?;
        Ok(KeyUsage {
            bits: bits_of(value.body),
        })
    }

    /// Whether the bit is set; a bit past the end is not.
    pub fn has(&self, bit: u8) -> bool
        ensures { result ≡ has_bit (seen_key_usage self.now) bit }
    {
        match self.bits.get(usize::from(bit / 8)) {
            Some(octet) => *octet >> (7 - bit % 8) & 1 == 1,
            None => false,
        }
    }
}
