//! CRL numbers (RFC 5280, 5.2.3).

ghost use Rattle.std.specs.Prelude.{◌≡◌, IsTrue};
ghost use Rattle.asn.specs.Integer.{binary_value};
ghost use Rattle.asn.specs.Reading.{seen};
ghost use Rattle.statements_crl.specs.CrlNumber.{NumberTestIsExact, is_crl_number, number_in};

use asn::{INTEGER, Number20};

/// CRLNumber ::= INTEGER (0..MAX), here below 2^160 (RFC 5280, 5.2.3).
#[derive(Clone, Copy)]
pub struct CrlNumber<'a> {
    /// The contents of the INTEGER.
    pub contents: &'a [u8],
    pub ghost is_number: { IsTrue (is_crl_number contents.now) },
}

/// Whether these are the contents of an INTEGER from 0 to 2^160 - 1.
#[tactic(auto, unfolding(crate::specs::CrlNumber::is_crl_number))]
fn is_number(contents: &[u8]) -> bool
    ensures { result ≡ is_crl_number contents.now }
{
    match contents {
        [] => false,
        [first] => *first < 128,
        [0, second, octets @ ..] => *second >= 128 && octets.len() < 20,
        [first, _, octets @ ..] => *first < 128 && octets.len() < 19,
    }
}

/// The number that such contents spell.
fn spelled_by(contents: &[u8]) -> Number20
    requires { IsTrue (is_crl_number contents.now) }
    ensures { result ≡ binary_value contents.now }
{
    Number20::from_content(contents).unwrap()
}

impl<'a> CrlNumber<'a> {
    /// The number that the octets are the INTEGER of; `None` if they are none.
    #[tactic(auto, unfolding(crate::specs::CrlNumber::number_in))]
    pub(crate) fn read(octets: &'a [u8]) -> Option<CrlNumber<'a>>
        ensures { seen (λ number. number.contents.now) result ≡ number_in octets.now }
    {
        let [identifier, size, contents @ ..] = octets else {
            return None;
        };
        if *identifier == INTEGER && usize::from(*size) == contents.len() && is_number(contents) {
            Some(CrlNumber { contents })
        } else {
            None
        }
    }

    /// The number.
    pub fn value(self) -> Number20
        ensures { result ≡ binary_value self.entry.contents.now }
    {
        spelled_by(self.contents)
    }
}

/// The test of the contents of a CRL number is exact.
pub fn number_laws()
    ensures { NumberTestIsExact }
{}
