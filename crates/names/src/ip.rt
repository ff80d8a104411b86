//! IP addresses and the ranges that constrain them (RFC 5280, 4.2.1.6 and 4.2.1.10).

ghost use Rattle.std.specs.Prelude.{◌≡◌, ◌≤◌, ◌<◌, ◌*◌, ◌↔◌, ℕ, IsTrue, IsOk, IfOk, IfErr, IfSome, IfNone, MatchOption, length};
ghost use Rattle.names.specs.Ip.{IsIpAddress, IsMaskOf, HasHole, HasNoOneFrom, IsOneFrom, IsRangeOf, IsRefusedFor, IsInRange, bit, agree, is_in_address_range, is_range_inside};
ghost use Rattle.asn.specs.Reading.{Gives};
ghost use Rattle.names.specs.Bases.{is_ip_address, address_range, range_of_base};
ghost use Rattle.names.specs.Laws.{RangeTestIsExact, RangeInsideIsSound, SharedRangesAreNested};

/// The addresses that begin with the first `prefix` bits of `address`.
#[derive(Clone, Copy)]
pub struct IpRange<'a> {
    /// 4 or 16 octets in a range that was read.
    pub address: &'a [u8],
    /// The number of ones in the mask.
    pub prefix: u16,
}

/// Why octets are not the base of a constraint on addresses.
#[derive(Clone, Copy, PartialEq, Eq, Debug)]
pub enum IpFault {
    /// They are not 8 or 32 octets: an address and its mask.
    Length,
    /// The mask has a one after a zero.
    Mask,
}

/// Whether the octets are as many as an address has: 4 or 16.
#[tactic(auto, unfolding(crate::specs::Bases::is_ip_address))]
pub fn is_ip_address(octets: &[u8]) -> bool
    ensures decides { IsTrue result ↔ IsIpAddress octets.now }
    ensures test { result ≡ is_ip_address octets.now }
{
    matches!(octets.len(), 4 | 16)
}

/// The bit at `index`, the highest of the first octet being bit 0; 0 past the end.
fn bit_at(octets: &[u8], index: u16) -> u8
    ensures { result ≡ bit octets.now index }
{
    match octets.get(usize::from(index / 8)) {
        Some(octet) => *octet >> (7 - index % 8) & 1,
        None => 0,
    }
}

/// Whether the first `count` bits agree.
#[tactic(auto, unfolding(crate::specs::Ip::agree))]
fn bits_agree(left: &[u8], right: &[u8], count: u16) -> bool
    ensures { result ≡ agree count left.now right.now }
{
    (0..count).all(|index| bit_at(left, index) == bit_at(right, index))
}

/// How many ones `mask` begins with.
fn leading_ones(mask: &[u8]) -> u16
    requires { length mask.now ≤ 16 }
    ensures within { result ≤ 8 * length mask.now }
    ensures ones { (i : ℕ) → i < result → bit mask.now i ≡ 1 }
    ensures last { result < 8 * length mask.now → bit mask.now result ≡ 0 }
{
    let count = 8 * mask.len() as u16;
    for i in 0..count {
        if bit_at(mask, i) == 0 {
            return i;
        }
    }
    count
}

/// The index of the first one from `start` on.
fn one_from(mask: &[u8], start: u16) -> Option<u16>
    requires { length mask.now ≤ 16 }
    ensures none { IfNone result (HasNoOneFrom start mask.now) }
    ensures some { IfSome result (IsOneFrom start mask.now) }
{
    let count = 8 * mask.len() as u16;
    for i in start..count {
        if bit_at(mask, i) != 0 {
            return Some(i);
        }
    }
    None
}

/// How many ones the mask begins with, if zeros follow.
fn prefix_of(mask: &[u8]) -> Option<u16>
    requires { length mask.now ≤ 16 }
    ensures { MatchOption result (HasHole mask.now) (IsMaskOf mask.now) }
{
    let prefix = leading_ones(mask);
    match one_from(mask, prefix) {
        Some(_) => None,
        None => Some(prefix),
    }
}

impl<'a> IpRange<'a> {
    /// Reads the base of a constraint: an address, and a mask of ones and then zeros (RFC 4632, 3.1).
    pub fn of_base(base: &'a [u8]) -> Result<IpRange<'a>, IpFault>
        ensures reads { IfOk result (IsRangeOf base.now) }
        ensures accepts { (range : IpRange) → IsRangeOf base.now range → IsOk result }
        ensures refuses { IfErr result (IsRefusedFor base.now) }
        ensures range { Gives address_range result (range_of_base base.now) }
    {
        if !matches!(base.len(), 8 | 32) {
            return Err(IpFault::Length);
        }
        let (address, mask) = base.split_at(base.len() / 2);
        match prefix_of(mask) {
            Some(prefix) => Ok(IpRange { address, prefix }),
            None => Err(IpFault::Mask),
        }
    }
}

impl IpRange<'_> {
    /// Whether the address lies in the range.
    #[tactic(auto, unfolding(crate::specs::Ip::is_in_address_range))]
    pub fn covers(&self, address: &[u8]) -> bool
        ensures decides { IsTrue result ↔ IsInRange address.now self.now }
        ensures test { result ≡ is_in_address_range address.now self.now }
    {
        address.len() == self.address.len() && bits_agree(self.address, address, self.prefix)
    }

    /// Whether the range lies in the other.
    #[tactic(auto, unfolding(crate::specs::Ip::is_range_inside))]
    pub fn inside(&self, other: &IpRange<'_>) -> bool
        ensures { result ≡ is_range_inside self.now other.now }
    {
        self.address.len() == other.address.len()
            && other.prefix <= self.prefix
            && bits_agree(other.address, self.address, other.prefix)
    }
}

/// The test `covers` decides the relation on bits; `inside` is sound; and two ranges that share an address are nested.
pub fn range_laws()
    ensures test { RangeTestIsExact }
    ensures sound { RangeInsideIsSound }
    ensures nested { SharedRangesAreNested }
{}
