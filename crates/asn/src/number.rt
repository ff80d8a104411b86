//! Numbers of at most 20 octets, as a CRL number is (RFC 5280 5.2.3).

ghost use Rattle.std.specs.Prelude.{◌≡◌, ◌<◌, ◌≤◌, ◌^◌, ℕ, length, nat_eq, Some, IfSome, IfNone};
ghost use Rattle.std.specs.Ordering.{nat_cmp};
ghost use Rattle.asn.specs.Integer.{IsMagnitude, HasNoMagnitude, IsNumber20, binary_value};
ghost use Rattle.std.specs.Cmp.Rules.{comparing};
ghost use Rattle.std.proofs.Common.{rules};

use std::cmp::Ordering;
use std::marker::Model;

/// A number from 0 to 2^160 - 1, which clauses see as that number.
#[derive(Clone, Copy, Debug)]
pub struct Number20 {
    /// The number in binary, the most significant octet first.
    octets: [u8; 20],
}

impl Model for Number20 {
    ghost use Rattle.std.specs.Prelude.{ℕ};

    ghost Value = { ℕ };

    ghost use Rattle.asn.specs.Integer.{binary_value};
    ghost use Rattle.asn.specs.NumberLaws.{AreTwentyOctets, number_octets, number_octets-twenty};
    ghost use Rattle.std.proofs.Common.{ap};

    ghost view = { λ n. binary_value n.octets };

    ghost invariant = { λ n. AreTwentyOctets n.octets };

    ghost inverse = { λ value. record { octets = number_octets 20 value } };

    ghost inverse_ok = { λ n is.
        ap (λ octets. record { octets = octets }) (number_octets-twenty n.octets is) };
}

/// The octets of a number that is not negative, without those of zeros at the front.
fn magnitude_of(content: &[u8]) -> Option<&[u8]>
    ensures some { IfSome result (λ magnitude. IsMagnitude content.now magnitude.now) }
    ensures none { IfNone result (HasNoMagnitude content.now) }
{
    match content {
        [0, second, ..] if *second < 128 => None,
        [0, magnitude @ ..] => Some(magnitude),
        [first, ..] if *first < 128 => Some(content),
        _ => None,
    }
}

/// Octets of zeros, and the magnitude behind them.
fn padded(magnitude: &[u8]) -> [u8; 20]
    requires { length magnitude.now ≤ 20 }
    ensures { binary_value result ≡ binary_value magnitude.now }
{
    let mut octets = [0; 20];
    octets[20 - magnitude.len()..].copy_from_slice(magnitude);
    octets
}

impl Number20 {
    /// The number in an INTEGER's contents; `None` if the octets are no such contents, or the number is negative or 2^160 or more.
    pub fn from_content(content: &[u8]) -> Option<Number20>
        ensures some { IfSome result (IsNumber20 content.now) }
        ensures none { IfNone result ((number : ℕ) → IsNumber20 content.now number → ⊥) }
    {
        let magnitude = magnitude_of(content)?;
        if magnitude.len() > 20 {
            return None;
        }
        Some(Number20::from_octets(padded(magnitude)))
    }

    /// The number that 20 octets spell in binary, the most significant first.
    pub fn from_octets(octets: [u8; 20]) -> Number20
        ensures value { result ≡ binary_value octets }
        ensures bound { result < 2 ^ 160 }
    {
        Number20 { octets }
    }

    /// The number in binary in 20 octets, the most significant first.
    pub fn to_octets(self) -> [u8; 20]
        ensures { binary_value result ≡ self }
    {
        self.octets
    }
}

impl PartialEq for Number20 {
    ghost eq = { nat_eq };

    ghost laws = { Prim.search (comparing, rules) };

    fn eq(&self, other: &Number20) -> bool {
        self.octets == other.octets
    }
}

impl Eq for Number20 {
    ghost laws = { Prim.search rules };
}

impl PartialOrd for Number20 {
    ghost partial_cmp = { λ one other. Some (nat_cmp one other) };

    ghost laws = { Prim.search (comparing, rules) };

    fn partial_cmp(&self, other: &Number20) -> Option<Ordering> {
        Some(self.cmp(other))
    }
}

impl Ord for Number20 {
    ghost cmp = { nat_cmp };

    ghost total = { Prim.search rules };

    ghost matches_partial_cmp = { Prim.search rules };

    ghost matches_eq = { Prim.search rules };

    fn cmp(&self, other: &Number20) -> Ordering {
        self.octets.cmp(&other.octets)
    }
}
