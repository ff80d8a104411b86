//! Lists of subtrees that repeat others: authorities of one path mostly carry the same ones.

ghost use Rattle.std.specs.Prelude.{◌≡◌, drop};
ghost use Rattle.names.specs.Bases.{domain_names, address_range};
ghost use Rattle.names.specs.GeneralView.{subtree_base};
ghost use Rattle.path_conditions.specs.Narrowing.{bases_of};
ghost use Rattle.path_conditions.specs.Repetition.{are_same_names, are_same_ranges, is_same_base, begins_same, repeats, repeats_form, repeats_end};

use crate::coverage::is_about;
use names::{Domain, Form, IpRange, Subtree};

/// Whether the domains have the same octets.
#[tactic(auto, unfolding(crate::specs::Repetition::are_same_names))]
fn is_same_domain(one: &Domain<'_>, other: &Domain<'_>) -> bool
    ensures { result ≡ are_same_names (domain_names one.now) (domain_names other.now) }
{
    match (one, other) {
        (Domain::Every, Domain::Every) => true,
        (Domain::Within(one), Domain::Within(other)) => one == other,
        (Domain::Below(one), Domain::Below(other)) => one == other,
        _ => false,
    }
}

/// Whether the ranges have the same octets, and as many bits.
#[tactic(auto, unfolding(crate::specs::Repetition::are_same_ranges))]
fn is_same_range(one: &IpRange<'_>, other: &IpRange<'_>) -> bool
    ensures { result ≡ are_same_ranges (address_range one.now) (address_range other.now) }
{
    one.prefix == other.prefix && one.address == other.address
}

/// Whether the subtrees have names that match, or the same octets. Names with the same octets match, and are not looked into. No two
/// subtrees of a form that is not processed are the same.
#[tactic(auto, unfolding(crate::specs::Repetition::is_same_base))]
fn is_same(one: &Subtree<'_>, other: &Subtree<'_>) -> bool
    ensures { result ≡ is_same_base (subtree_base one.now) (subtree_base other.now) }
{
    match (one, other) {
        (Subtree::Directory(one), Subtree::Directory(other)) => one.matches(other),
        (Subtree::Dns(one), Subtree::Dns(other)) => is_same_domain(one, other),
        (Subtree::Ip(one), Subtree::Ip(other)) => is_same_range(one, other),
        _ => false,
    }
}

/// Whether the list has the same subtree at the index.
fn is_same_at(list: &[Subtree<'_>], index: usize, other: &Subtree<'_>) -> bool
    ensures { result ≡ begins_same (drop index list.now) (subtree_base other.now) }
{
    match list.get(index) {
        None => false,
        Some(base) => is_same(base, other),
    }
}

/// Whether the lists have the same subtrees, in order.
fn repeats(list: &[Subtree<'_>], more: &[Subtree<'_>]) -> bool
    ensures { result ≡ repeats (bases_of list.now) (bases_of more.now) }
{
    let mut count = 0;
    for base in more {
        if !is_same_at(list, count, base) {
            return false;
        }
        count += 1;
    }
    count == list.len()
}

/// Whether the list has the same subtrees as the others have of the form, in order.
pub(crate) fn repeats_form(list: &[Subtree<'_>], form: Form, carried: &[Subtree<'_>]) -> bool
    ensures { result ≡ repeats_form form (bases_of list.now) (bases_of carried.now) }
{
    let mut count = 0;
    for base in carried {
        if is_about(base, form) {
            if !is_same_at(list, count, base) {
                return false;
            }
            count += 1;
        }
    }
    count == list.len()
}

/// Whether the list ends in the same subtrees, in order.
pub(crate) fn repeats_end(list: &[Subtree<'_>], more: &[Subtree<'_>]) -> bool
    ensures { result ≡ repeats_end (bases_of list.now) (bases_of more.now) }
{
    let start = list.len().saturating_sub(more.len());
    repeats(&list[start..], more)
}
