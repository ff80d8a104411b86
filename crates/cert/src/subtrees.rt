//! The subtrees of nameConstraints (RFC 5280, 4.2.1.10).

ghost use Rattle.std.specs.Prelude.{◌≤◌, IfOk, vec_len};
ghost use Rattle.asn.specs.Reading.{left, Gives};
ghost use Rattle.names.specs.GeneralLayout.{base};
ghost use Rattle.names.specs.GeneralView.{subtree_base};
ghost use Rattle.cert.specs.Fault.{GivesUnlessFull};
ghost use Rattle.cert.specs.NameConstraints.{no_bounds, subtree, all_subtrees, AddsSubtree, some_subtrees, seen_bases, TakesSubtrees};

use crate::fault::{CertFault, CertRefusal, CertRule, name_refusal};
use crate::limit::{MOST_NAMES, check_room};
use asn::{Cursor, SEQUENCE, Tlv};
use names::Subtree;
use std::alloc::Global;

/// The fault, at the next value, if a minimum or a maximum comes, or another value is left over.
#[tactic(auto, unfolding(crate::specs::NameConstraints::no_bounds, asn::specs::Walk::check_that))]
fn check_no_bounds(members: Cursor<'_>) -> Result<(), CertRefusal>
    ensures { Gives (λ _. tt) result (no_bounds (left members.entry)) }
{
    if members.begins(0x80) || members.begins(0x81) {
        return Err((CertRule::SubtreeBounds, members.at()));
    }
    members.ended(CertRule::ExtensionValue)
}

/// GeneralSubtree ::= SEQUENCE { base GeneralName, minimum [0] BaseDistance DEFAULT 0, maximum [1] BaseDistance OPTIONAL }
///
/// The base of the subtree that has these members.
#[tactic(auto, unfolding(crate::specs::NameConstraints::subtree))]
fn read_subtree<'a>(members: Cursor<'a>) -> Result<Subtree<'a>, CertRefusal>
    ensures { Gives subtree_base result (subtree (left members.entry)) }
{
    let mut members = members;
    let value = members.next_or(CertRule::ExtensionValue)?;
    let base = Subtree::base_at(value).map_err(name_refusal)?;
    check_no_bounds(members)?;
    Ok(base)
}

/// Adds the base of the subtree that the value is, if there are fewer than `most`.
#[tactic(auto, unfolding(crate::specs::NameConstraints::one_more_subtree))]
fn push_subtree<'a>(
    all: &mut Vec<Subtree<'a>>,
    most: usize,
    value: Tlv<'a>,
) -> Result<(), CertFault>
    ensures walk { AddsSubtree most value.entry all.old all.new result }
    ensures served { vec_len all.old ≤ most → vec_len all.new ≤ most }
{
    value.is_a(SEQUENCE, CertRule::ExtensionValue)?;
    check_room(most, all.len(), value.at)?;
    let base = read_subtree(value.members())?;
    all.push(base)?;
    Ok(())
}

/// The bases of the subtrees that the values are, at most so many.
fn subtree_list<'a>(
    alloc: Global,
    most: usize,
    members: Cursor<'a>,
) -> Result<Vec<Subtree<'a>>, CertFault>
    ensures walk { GivesUnlessFull seen_bases result (all_subtrees most (left members.entry)) }
    ensures served { IfOk result (λ all. vec_len all ≤ most) }
{
    let mut members = members;
    let mut all = Vec::new(alloc);
    while let Some(value) = members.next() {
        push_subtree(&mut all, most, value)?;
    }
    Ok(all)
}

/// GeneralSubtrees ::= SEQUENCE SIZE (1..MAX) OF GeneralSubtree
///
/// The bases of the subtrees that the values are: at least one, and at most so many.
#[tactic(auto, unfolding(crate::specs::NameConstraints::some_subtrees))]
fn read_subtrees<'a>(
    alloc: Global,
    most: usize,
    members: Cursor<'a>,
) -> Result<Vec<Subtree<'a>>, CertFault>
    ensures walk { GivesUnlessFull seen_bases result (some_subtrees most (left members.entry)) }
    ensures served { IfOk result (λ all. vec_len all ≤ most) }
{
    members.some(CertRule::ExtensionValue)?;
    subtree_list(alloc, most, members)
}

/// permittedSubtrees [0] GeneralSubtrees OPTIONAL
#[tactic(auto, unfolding(crate::specs::NameConstraints::subtrees))]
pub(crate) fn take_permitted<'a>(
    alloc: Global,
    members: &mut Cursor<'a>,
) -> Result<Vec<Subtree<'a>>, CertFault>
    ensures walk { TakesSubtrees 4096 0xA0 members.old members.new result }
    ensures served { IfOk result (λ all. vec_len all ≤ MOST_NAMES) }
{
    match members.optional(0xA0) {
        None => Ok(Vec::new(alloc)),
        Some(list) => read_subtrees(alloc, MOST_NAMES, list.members()),
    }
}

/// excludedSubtrees [1] GeneralSubtrees OPTIONAL, at most so many.
#[tactic(auto, unfolding(crate::specs::NameConstraints::subtrees))]
pub(crate) fn take_excluded<'a>(
    alloc: Global,
    most: usize,
    members: &mut Cursor<'a>,
) -> Result<Vec<Subtree<'a>>, CertFault>
    ensures walk { TakesSubtrees most 0xA1 members.old members.new result }
    ensures served { IfOk result (λ all. vec_len all ≤ most) }
{
    match members.optional(0xA1) {
        None => Ok(Vec::new(alloc)),
        Some(list) => read_subtrees(alloc, most, list.members()),
    }
}
