//! BIT STRINGs (X.690, 8.6).

ghost use Rattle.std.specs.Prelude.{◌≡◌};
ghost use Rattle.cert.specs.BitString.{bits_in, has_no_unused_bits};

use asn::Tlv;

/// The octets of the bits, without the count of unused bits at the front.
pub fn bits_of(contents: &[u8]) -> &[u8]
    ensures { result.now ≡ bits_in contents.now }
{
    match contents {
        [] => &[],
        [_, bits @ ..] => bits,
    }
}

/// Whether no bit is unused.
pub fn is_of_whole_octets(contents: &[u8]) -> bool
    ensures { result ≡ has_no_unused_bits contents.now }
{
    match contents {
        [] => false,
        [unused, ..] => *unused == 0,
    }
}

/// A BIT STRING: the contents are a count of unused bits and the octets of the bits.
#[derive(Clone, Copy)]
pub struct BitString<'a> {
    /// The whole value.
    pub value: Tlv<'a>,
}

impl<'a> BitString<'a> {
    ghost use Rattle.cert.specs.BitString.{seen_bit_string};

    /// The octets of the bits, without the count of unused bits.
    pub fn octets(&self) -> &'a [u8]
        ensures { result.now ≡ (seen_bit_string self.now).octets }
    {
        bits_of(self.value.body)
    }
}
