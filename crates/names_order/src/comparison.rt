//! The order of subtrees.

ghost use Rattle.std.specs.Prelude.{◌≡◌, ◌<◌, ◌≤◌, ℕ, reverse, slice_index};
ghost use Rattle.std.specs.Cmp.Lexicographic.{slice_cmp};
ghost use Rattle.std.specs.Ordering.{nat_cmp};
ghost use Rattle.names.specs.Ip.{bit};
ghost use Rattle.names.specs.Bases.{domain_names, address_range};
ghost use Rattle.names.specs.GeneralView.{subtree_base};
ghost use Rattle.names_order.specs.Order.{InsideBegins, backwards, text_key, base_end, base_order, domain_key, prefix_bits, range_key, octet_order, octet_rank, form_rank};

use names::{Domain, IpRange, Subtree};
use std::cmp::Ordering;

/// The place of an octet among others: the dot is the least, and ASCII case is folded.
fn octet_rank(octet: u8) -> u16
    ensures { result ≡ octet_rank octet }
{
    match octet.to_ascii_lowercase() {
        b'.' => 0,
        folded => u16::from(folded) + 2,
    }
}

/// Compares octets by their places.
#[inline(always)]
fn compare_octets(one: u8, other: u8) -> Ordering
    ensures { result ≡ octet_order one other }
{
    if one == other {
        Ordering::Equal
    } else {
        octet_rank(one).cmp(&octet_rank(other))
    }
}

/// The texts without octets that both end in, of which eight are compared at once.
fn without_same_end<'a, 'b>(left: &'a [u8], right: &'b [u8]) -> (&'a [u8], &'b [u8])
    ensures { slice_cmp octet_order (reverse left.entry.now) (reverse right.entry.now)
        ≡ slice_cmp octet_order (reverse result.0.now) (reverse result.1.now) }
{
    let mut left_rest = left;
    let mut right_rest = right;
    while let Some((left_front, left_end)) = left_rest.split_last_chunk::<8>() {
        match right_rest.split_last_chunk::<8>() {
            Some((right_front, right_end)) if left_end == right_end => {
                left_rest = left_front;
                right_rest = right_front;
            }
            _ => return (left_rest, right_rest),
        }
    }
    (left_rest, right_rest)
}

/// Compares the texts from their ends on.
fn compare_texts(left: &[u8], right: &[u8]) -> Ordering
    ensures { result ≡ slice_cmp octet_order (reverse left.now) (reverse right.now) }
{
    let (mut left_rest, mut right_rest) = without_same_end(left, right);
    while let Some((one, left_front)) = left_rest.split_last() {
        let Some((other, right_front)) = right_rest.split_last() else {
            return Ordering::Greater;
        };
        match compare_octets(*one, *other) {
            Ordering::Equal => {
                left_rest = left_front;
                right_rest = right_front;
            }
            order => return order,
        }
    }
    if right_rest.is_empty() {
        Ordering::Equal
    } else {
        Ordering::Less
    }
}

/// Compares a base, whose own name it holds or not, with a domain.
fn compare_base(one: &[u8], below: bool, right: &Domain<'_>) -> Ordering
    ensures { result ≡ slice_cmp nat_cmp (text_key (backwards one.now) (base_end below))
        (domain_key (domain_names right.now)) }
{
    match right {
        Domain::Every => Ordering::Greater,
        Domain::Within(other) => compare_texts(one, other).then(below.cmp(&false)),
        Domain::Below(other) => compare_texts(one, other).then(below.cmp(&true)),
    }
}

/// Compares domains: one stands before all that it holds.
fn compare_domains(left: &Domain<'_>, right: &Domain<'_>) -> Ordering
    ensures { result ≡ slice_cmp nat_cmp (domain_key (domain_names left.now))
        (domain_key (domain_names right.now)) }
{
    match left {
        Domain::Every => match right {
            Domain::Every => Ordering::Equal,
            _ => Ordering::Less,
        },
        Domain::Within(one) => compare_base(one, false, right),
        Domain::Below(one) => compare_base(one, true, right),
    }
}

/// The octet at `index`; 0 past the end.
fn octet_at(octets: &[u8], index: u16) -> u8
    ensures { result ≡ slice_index octets.now index }
{
    match octets.get(usize::from(index)) {
        Some(octet) => *octet,
        None => 0,
    }
}

/// The bit at `index`, the highest of the first octet being bit 0; 0 past the end.
fn bit_at(octets: &[u8], index: u16) -> u8
    ensures { result ≡ bit octets.now index }
{
    octet_at(octets, index / 8) >> (7 - index % 8) & 1
}

/// How many bits, `most` at most, are the same in both: those of the octets with which both begin.
fn same_bits(left: &[u8], right: &[u8], most: u16) -> u16
    ensures within { result ≤ most }
    ensures same { (i : ℕ) → i < result → bit left.now i ≡ bit right.now i }
{
    for i in 0..most / 8 {
        if octet_at(left, i) != octet_at(right, i) {
            return 8 * i;
        }
    }
    most / 8 * 8
}

/// Compares the bits of the prefixes.
fn compare_bits(left: &IpRange<'_>, right: &IpRange<'_>) -> Ordering
    ensures { result ≡ slice_cmp nat_cmp (prefix_bits (address_range left.now))
        (prefix_bits (address_range right.now)) }
{
    let count = left.prefix.min(right.prefix);
    for i in same_bits(left.address, right.address, count)..count {
        match bit_at(left.address, i).cmp(&bit_at(right.address, i)) {
            Ordering::Equal => {}
            order => return order,
        }
    }
    left.prefix.cmp(&right.prefix)
}

/// Compares ranges: one stands before all that it holds.
fn compare_ranges(left: &IpRange<'_>, right: &IpRange<'_>) -> Ordering
    ensures { result ≡ slice_cmp nat_cmp (range_key (address_range left.now))
        (range_key (address_range right.now)) }
{
    left.address
        .len()
        .cmp(&right.address.len())
        .then(compare_bits(left, right))
}

/// The place of the form of a subtree among others.
fn form_rank(subtree: &Subtree<'_>) -> u8
    ensures { result ≡ form_rank (subtree_base subtree.now) }
{
    match subtree {
        Subtree::Dns(_) => 0,
        Subtree::Ip(_) => 1,
        Subtree::Directory(_) | Subtree::Other(_, _) => 2,
    }
}

/// Compares subtrees: one of DNS names or of addresses stands before all that lies in it, and what stands between lies in it too. Those of
/// directory names and of other forms stand behind these, and are equal.
pub fn order(left: &Subtree<'_>, right: &Subtree<'_>) -> Ordering
    ensures { result ≡ base_order (subtree_base left.now) (subtree_base right.now) }
{
    match (left, right) {
        (Subtree::Dns(one), Subtree::Dns(other)) => compare_domains(one, other),
        (Subtree::Ip(one), Subtree::Ip(other)) => compare_ranges(one, other),
        _ => form_rank(left).cmp(&form_rank(right)),
    }
}

/// A subtree of DNS names or of addresses lies in just those whose keys its own key begins with.
pub fn order_laws()
    ensures inside { InsideBegins }
{}
