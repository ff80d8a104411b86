//! Lists of subtrees in which names are found by halving.

ghost use Rattle.std.specs.Prelude.{◌≡◌, ◌++◌, ◌<◌, ◌≤◌, length, map, true, option_map, OnOk, IfOk};
ghost use Rattle.std.specs.List.Sorted.{IsPermutation, IsSortedBy};
ghost use Rattle.names.specs.GeneralView.{general_name, subtree_base};
ghost use Rattle.names_order.specs.Order.{begins_with, is_ordered};
ghost use Rattle.names_order.specs.Index.{HasSameMembers, lies_in_one, holds_name, is_in_one, one_covers, lies_within, stands_before, lies_in, outermost_subtrees, ordered, unordered, IsApart, HasNoLonger, prefix_in, directory_key, directory_keys, key_octets, begins_with_one, AreSearchable, AreOutermost, AreKeysIfMany, KeysDecide, AreUnorderedOf, all_of};

use crate::comparison::order;
use names::{Domain, General, IpRange, Subtree, coverage_laws};
use std::alloc::{AllocError, Global};
use std::marker::Model;
use std::slice::from_ref;

/// The most subtrees that are gone over one by one.
const SHORT: usize = 12;

/// Subtrees in order, if they are many. Whether a name or a subtree lies in one of them is found by halving, for directory names by their
/// keys, if these are many.
#[derive(Drop)]
pub struct Index<'a> {
    all: Vec<Subtree<'a>>,
    /// Those that lie in none before them.
    tops: Vec<Subtree<'a>>,
    /// Those that have no order.
    rest: Vec<Subtree<'a>>,
    /// The keys of those of directory names, if they are many, in order and without those that begin with another.
    keys: Vec<Vec<u8>>,
    /// The most bits of a range.
    longest: u16,
    /// Where the keys of names that are looked for find memory.
    alloc: Global,
}

impl<'a> Model for Index<'a> {
    ghost use Rattle.std.specs.Prelude.{List, map};
    ghost use Rattle.std.specs.Coded.{codes};
    ghost use Rattle.names.specs.GeneralLayout.{SubtreeBase};
    ghost use Rattle.names.specs.GeneralView.{subtree_base};
    ghost use Rattle.names_order.specs.Codes.{rdn_code};
    ghost use Rattle.names_order.specs.Index.{IsIndexedIfLong};

    ghost Value = { List SubtreeBase };

    ghost coded = { Prim.hlevel (codes, rdn_code) };

    ghost view = { λ i. map subtree_base i.all.items };

    ghost invariant = { λ i. IsIndexedIfLong i.all.items i.tops.items i.rest.items i.keys.items i.longest };
}

/// Whether the first subtree lies in the other.
fn is_inside(base: &Subtree<'_>, other: &Subtree<'_>) -> bool
    ensures { result ≡ lies_in (subtree_base base.now) (subtree_base other.now) }
{
    coverage_laws();
    base.inside(other)
}

/// Whether the subtree is of a form that has an order.
fn has_order(base: &Subtree<'_>) -> bool
    ensures { result ≡ is_ordered (subtree_base base.now) }
{
    match base {
        Subtree::Dns(_) => true,
        Subtree::Ip(_) => true,
        _ => false,
    }
}

/// The number of bits of a range; 0 for subtrees of other forms.
fn prefix_of(base: &Subtree<'_>) -> u16
    ensures { result ≡ prefix_in (subtree_base base.now) }
{
    match base {
        Subtree::Ip(range) => range.prefix,
        _ => 0,
    }
}

fn sort(list: &mut Vec<Subtree<'_>>) -> Result<(), AllocError>
    ensures sorted { OnOk result (IsSortedBy stands_before list.new.items) }
    ensures same { IsPermutation list.old.items list.new.items }
{
    list.sort_by(|one, other| order(one, other))
}

/// The subtrees that have an order.
fn select_ordered<'a>(alloc: Global, list: &[Subtree<'a>]) -> Result<Vec<Subtree<'a>>, AllocError>
    ensures { IfOk result (λ found. found.items ≡ ordered list.now) }
{
    list.iter()
        .copied()
        .filter(|base| has_order(base))
        .collect(alloc)
}

/// Of subtrees in order, those that have an order and do not lie in the last one that is kept.
fn select_outermost<'a>(
    alloc: Global,
    sorted: &[Subtree<'a>],
) -> Result<Vec<Subtree<'a>>, AllocError>
    ensures { IfOk result (λ tops. tops.items ≡ outermost_subtrees (ordered sorted.now)) }
{
    let mut tops = select_ordered(alloc, sorted)?;
    tops.dedup_by(|base, last| is_inside(base, last));
    Ok(tops)
}

/// The subtrees that have no order.
fn select_unordered<'a>(alloc: Global, list: &[Subtree<'a>]) -> Result<Vec<Subtree<'a>>, AllocError>
    ensures { IfOk result (λ rest. rest.items ≡ unordered list.now) }
{
    list.iter()
        .copied()
        .filter(|base| !has_order(base))
        .collect(alloc)
}

/// The key of a subtree of directory names.
fn key_of(alloc: Global, base: &Subtree<'_>) -> Result<Option<Vec<u8>>, AllocError>
    ensures { IfOk result (λ key.
        option_map key_octets key ≡ directory_key (subtree_base base.now)) }
{
    match base {
        Subtree::Directory(name) => Ok(Some(name.rdns_key(alloc)?)),
        _ => Ok(None),
    }
}

/// The keys of those that are subtrees of directory names.
fn keys_of(alloc: Global, list: &[Subtree<'_>]) -> Result<Vec<Vec<u8>>, AllocError>
    ensures { IfOk result (λ keys. map key_octets keys.items ≡ directory_keys list.now) }
{
    let mut keys = Vec::new(alloc);
    for base in list {
        if let Some(key) = key_of(alloc, base)? {
            keys.push(key)?;
        }
    }
    Ok(keys)
}

/// Whether the octets begin with the others.
fn goes_on(octets: &[u8], front: &[u8]) -> bool
    ensures { result ≡ begins_with octets.now front.now }
{
    octets.starts_with(front)
}

/// Sorts the keys, and leaves out those that begin with another. Runs of many that are in order are merged.
fn keep_outermost(keys: &mut Vec<Vec<u8>>) -> Result<(), AllocError>
    ensures { OnOk result (AreOutermost keys.old.items keys.new.items) }
{
    keys.sort()?;
    keys.dedup_by(|key, front| goes_on(key, front));
    Ok(())
}

/// The keys by which directory names are looked for, if the subtrees are many.
fn select_keys(alloc: Global, bases: &[Subtree<'_>]) -> Result<Vec<Vec<u8>>, AllocError>
    ensures { IfOk result (λ keys. AreKeysIfMany bases.now keys.items) }
{
    if bases.len() <= SHORT {
        return Ok(Vec::new(alloc));
    }
    let mut keys = keys_of(alloc, bases)?;
    keep_outermost(&mut keys)?;
    Ok(keys)
}

/// The keys once more.
fn copies_of(alloc: Global, keys: &[Vec<u8>]) -> Result<Vec<Vec<u8>>, AllocError>
    ensures { IfOk result (λ copies. map key_octets copies.items ≡ map key_octets keys.now) }
{
    let mut copies = Vec::new(alloc);
    for key in keys {
        copies.push(Vec::from_slice(alloc, key)?)?;
    }
    Ok(copies)
}

/// The most bits of a range.
fn longest_prefix(list: &[Subtree<'_>]) -> u16
    ensures { HasNoLonger result list.now }
{
    let mut longest = 0;
    for base in list {
        longest = prefix_of(base).max(longest);
    }
    longest
}

/// Whether the subtree lies in one of the others.
fn is_in_one(list: &[Subtree<'_>], base: &Subtree<'_>) -> bool
    ensures { result ≡ is_in_one list.now (subtree_base base.now) }
{
    list.iter().any(|other| is_inside(base, other))
}

/// Whether the name lies in the subtree.
fn covers(base: &Subtree<'_>, name: &General<'_>) -> bool
    ensures { result ≡ lies_within (general_name name.now) (subtree_base base.now) }
{
    coverage_laws();
    base.covers(name)
}

/// Whether the name lies in one of the subtrees.
fn one_covers(list: &[Subtree<'_>], name: &General<'_>) -> bool
    ensures { result ≡ one_covers list.now (general_name name.now) }
{
    list.iter().any(|base| covers(base, name))
}

/// Whether the subtree lies in one of the others, which are in order, and none in the one before it.
fn is_in_top(tops: &[Subtree<'_>], base: &Subtree<'_>) -> bool
    requires ordered { is_ordered (subtree_base base.now) ≡ true }
    requires sorted { IsSortedBy stands_before tops.now }
    requires apart { IsApart tops.now }
    ensures { result ≡ is_in_one tops.now (subtree_base base.now) }
{
    let place = tops.partition_point(|top| !order(base, top).is_lt());
    if place == 0 {
        return false;
    }
    is_inside(base, &tops[place - 1])
}

/// Whether the octets begin with one of the keys.
fn begins_with_one(keys: &[Vec<u8>], octets: &[u8]) -> bool
    requires { AreSearchable keys.now }
    ensures { result ≡ begins_with_one keys.now octets.now }
{
    let place = keys.partition_point(|key| !octets.cmp(key.as_slice()).is_lt());
    if place == 0 {
        return false;
    }
    goes_on(octets, &keys[place - 1])
}

/// Whether the subtree lies in one of those that have no order. If there is no memory for its key, it is compared with each, to the same
/// answer.
fn is_in_rest(alloc: Global, rest: &[Subtree<'_>], keys: &[Vec<u8>], base: &Subtree<'_>) -> bool
    requires { AreKeysIfMany rest.now keys.now }
    ensures { result ≡ is_in_one rest.now (subtree_base base.now) }
{
    if rest.len() <= SHORT {
        return is_in_one(rest, base);
    }
    match key_of(alloc, base) {
        Ok(Some(key)) => begins_with_one(keys, &key),
        _ => is_in_one(rest, base),
    }
}

impl<'a> Index<'a> {
    /// An index of a few subtrees.
    fn short(alloc: Global, all: Vec<Subtree<'a>>) -> Index<'a>
        requires { length all.items ≤ 12 }
        ensures { result ≡ map subtree_base all.entry.items }
    {
        Index {
            all,
            tops: Vec::new(alloc),
            rest: Vec::new(alloc),
            keys: Vec::new(alloc),
            longest: 0,
            alloc,
        }
    }

    /// An index of many subtrees, from those that have no order and their keys.
    fn long(
        alloc: Global,
        list: Vec<Subtree<'a>>,
        rest: Vec<Subtree<'a>>,
        keys: Vec<Vec<u8>>,
    ) -> Result<Index<'a>, AllocError>
        requires rest { rest.items ≡ unordered list.items }
        requires keys { AreKeysIfMany rest.items keys.items }
        ensures { IfOk result (λ index. HasSameMembers index (map subtree_base list.entry.items)) }
    {
        let mut all = list;
        sort(&mut all)?;
        let tops = select_outermost(alloc, &all)?;
        let longest = longest_prefix(&all);
        Ok(Index {
            all,
            tops,
            rest,
            keys,
            longest,
            alloc,
        })
    }

    /// An index of the subtrees. Runs of many that are in order are not sorted again.
    pub fn of(alloc: Global, list: Vec<Subtree<'a>>) -> Result<Index<'a>, AllocError>
        ensures { IfOk result (λ index. HasSameMembers index (map subtree_base list.entry.items)) }
    {
        if list.len() <= SHORT {
            return Ok(Index::short(alloc, list));
        }
        let rest = select_unordered(alloc, &list)?;
        let keys = select_keys(alloc, &rest)?;
        Index::long(alloc, list, rest, keys)
    }
}

impl<'a> Index<'a> {
    /// Keys with which the keys of names begin just if the names lie in one of the subtrees of directory names.
    fn keys(&self, alloc: Global) -> Result<Vec<Vec<u8>>, AllocError>
        ensures { IfOk result (λ keys. KeysDecide keys.items self.now) }
    {
        if self.all.len() <= SHORT {
            keys_of(alloc, &self.all)
        } else if self.rest.len() <= SHORT {
            keys_of(alloc, &self.rest)
        } else {
            copies_of(alloc, &self.keys)
        }
    }

    /// An index of the subtrees of all of these, and of those of one more. What is in order is merged, and keys that they keep are copied.
    pub fn joined(
        alloc: Global,
        indexes: &[Index<'a>],
        more: Index<'a>,
    ) -> Result<Index<'a>, AllocError>
        ensures { IfOk result (λ index. HasSameMembers index (all_of indexes.now ++ more.entry)) }
    {
        if indexes.is_empty() {
            return Ok(more);
        }
        let mut list = subtrees_of(alloc, indexes)?;
        list.extend_from_slice(more.subtrees())?;
        if list.len() <= SHORT {
            return Ok(Index::short(alloc, list));
        }
        let rest = select_unordered(alloc, &list)?;
        let keys = joined_keys(alloc, indexes, &more, &rest)?;
        Index::long(alloc, list, rest, keys)
    }

    /// An index of these and of more.
    pub fn with(&self, alloc: Global, more: &[Subtree<'a>]) -> Result<Index<'a>, AllocError>
        ensures { IfOk result (λ index.
            HasSameMembers index (self.now ++ map subtree_base more.now)) }
    {
        let mut list = Vec::new(alloc);
        list.extend_from_slice(more)?;
        let other = Index::of(alloc, list)?;
        Index::joined(alloc, from_ref(self), other)
    }

    /// The subtrees, in order if they are many.
    pub fn subtrees(&self) -> &[Subtree<'a>]
        ensures { map subtree_base result.now ≡ self.now }
    {
        &self.all
    }

    /// Whether the subtree lies in one of these.
    pub fn holds(&self, base: &Subtree<'_>) -> bool
        ensures { result ≡ lies_in_one self.now (subtree_base base.now) }
    {
        if self.all.len() <= SHORT {
            is_in_one(&self.all, base)
        } else if has_order(base) {
            is_in_top(&self.tops, base)
        } else {
            is_in_rest(self.alloc, &self.rest, &self.keys, base)
        }
    }

    /// Whether the name lies in one of these, which are many.
    fn finds(&self, name: &General<'_>) -> bool
        requires { 12 < length self.now }
        ensures { result ≡ holds_name self.now (general_name name.now) }
    {
        match name {
            General::Directory(name) => self.holds(&Subtree::Directory(*name)),
            General::Dns(name) => self.holds(&Subtree::Dns(Domain::Within(name))),
            General::Ip(address) => {
                let prefix = self.longest;
                self.holds(&Subtree::Ip(IpRange { address, prefix }))
            }
            General::Other(_, _) => false,
        }
    }

    /// Whether the name lies in one of these.
    pub fn covers(&self, name: &General<'_>) -> bool
        ensures { result ≡ holds_name self.now (general_name name.now) }
    {
        if self.all.len() <= SHORT {
            one_covers(&self.all, name)
        } else {
            self.finds(name)
        }
    }
}

/// The subtrees of all.
fn subtrees_of<'a>(alloc: Global, indexes: &[Index<'a>]) -> Result<Vec<Subtree<'a>>, AllocError>
    ensures { IfOk result (λ list. map subtree_base list.items ≡ all_of indexes.now) }
{
    let mut list = Vec::new(alloc);
    for index in indexes {
        list.extend_from_slice(index.subtrees())?;
    }
    Ok(list)
}

/// Keys with which the keys of names begin just if the names lie in one of the subtrees of directory names of all.
fn keys_of_all(alloc: Global, indexes: &[Index<'_>]) -> Result<Vec<Vec<u8>>, AllocError>
    ensures { IfOk result (λ keys. KeysDecide keys.items (all_of indexes.now)) }
{
    let mut keys = Vec::new(alloc);
    for index in indexes {
        let mut more = index.keys(alloc)?;
        keys.append(&mut more)?;
    }
    Ok(keys)
}

/// The keys by which directory names are looked for in the subtrees of all of these and one more, if those that have no order are many.
fn joined_keys(
    alloc: Global,
    indexes: &[Index<'_>],
    more: &Index<'_>,
    rest: &[Subtree<'_>],
) -> Result<Vec<Vec<u8>>, AllocError>
    requires { AreUnorderedOf rest.now (all_of indexes.now ++ more.now) }
    ensures { IfOk result (λ keys. AreKeysIfMany rest.now keys.items) }
{
    if rest.len() <= SHORT {
        return Ok(Vec::new(alloc));
    }
    let mut keys = keys_of_all(alloc, indexes)?;
    let mut others = more.keys(alloc)?;
    keys.append(&mut others)?;
    keep_outermost(&mut keys)?;
    Ok(keys)
}
