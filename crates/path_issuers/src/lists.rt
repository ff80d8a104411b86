//! Lists of places, one for each number.

ghost use Rattle.std.specs.Prelude.{◌≡◌, ◌<◌, [], ◌∷◌, ◌++◌, IfOk, OnOk, ℕ, length, slice_index, slice_index_or, slice_set, vec_len};
ghost use Rattle.std.specs.List.{All};
ghost use Rattle.std.specs.List.Sorted.{IsStrictlyIncreasing};
ghost use Rattle.path_issuers.specs.Lists.{ArePlacesByNumber, AreTurned, Adds, list_at, lists_of};

use std::alloc::{AllocError, Global};

/// The number at the place; 0 if there is none.
pub(crate) fn number_at(numbers: &[usize], place: usize) -> usize
    ensures { result ≡ slice_index numbers.now place }
{
    match numbers.get(place) {
        Some(number) => *number,
        None => 0,
    }
}

/// The list at the place; an empty one if there is none.
pub fn list_at(lists: &[Vec<usize>], place: usize) -> &[usize]
    ensures { result.now ≡ list_at (lists_of lists.now) place }
{
    match lists.get(place) {
        Some(list) => list,
        None => &[],
    }
}

/// As many empty lists.
pub(crate) fn empty_lists(alloc: Global, count: usize) -> Result<Vec<Vec<usize>>, AllocError>
    ensures count { IfOk result (λ lists. vec_len lists ≡ count) }
    ensures empty { IfOk result (λ lists. (place : ℕ) → list_at (lists_of lists.items) place ≡ []) }
{
    let mut lists = Vec::new(alloc);
    for made in 0..count {
        lists.push(Vec::new(alloc))?;
    }
    Ok(lists)
}

/// Adds a place to the list at another.
fn add(lists: &mut Vec<Vec<usize>>, at: usize, place: usize) -> Result<(), AllocError>
    requires { at < vec_len lists.old }
    ensures { OnOk result (lists_of lists.new.items
        ≡ slice_set (lists_of lists.old.items) at
        (list_at (lists_of lists.old.items) at ++ place ∷ [])) }
{
    lists[at].push(place)?;
    Ok(())
}

/// For each number below the count, the places where it stands, in order.
pub(crate) fn places_by_number(
    alloc: Global,
    numbers: &[usize],
    count: usize,
) -> Result<Vec<Vec<usize>>, AllocError>
    requires { All (λ number. number < count) numbers.now }
    ensures { IfOk result (λ lists. ArePlacesByNumber numbers.now (lists_of lists.items)) }
{
    let mut lists = empty_lists(alloc, count)?;
    for (place, number) in numbers.iter().enumerate() {
        add(&mut lists, *number, place)?;
    }
    Ok(lists)
}

/// Adds a place to each of the lists.
fn add_to_each(lists: &mut Vec<Vec<usize>>, ats: &[usize], place: usize) -> Result<(), AllocError>
    requires within { All (λ at. at < vec_len lists.old) ats.now }
    requires ascending { IsStrictlyIncreasing ats.now }
    ensures count { OnOk result (vec_len lists.new ≡ vec_len lists.old) }
    ensures adds { OnOk result (Adds place ats.now (lists_of lists.old.items)
        (lists_of lists.new.items)) }
{
    for at in ats {
        add(lists, *at, place)?;
    }
    Ok(())
}

/// For each place below the count, the places in whose lists it is, in order.
pub(crate) fn turned(
    alloc: Global,
    lists: &[Vec<usize>],
    count: usize,
) -> Result<Vec<Vec<usize>>, AllocError>
    requires within { (place : ℕ) → All (λ at. at < count) (list_at (lists_of lists.now) place) }
    requires ascending { (place : ℕ) → IsStrictlyIncreasing (list_at (lists_of lists.now) place) }
    ensures { IfOk result (λ turned. AreTurned (lists_of lists.now) (lists_of turned.items)) }
{
    let mut turned = empty_lists(alloc, count)?;
    for (place, list) in lists.iter().enumerate() {
        add_to_each(&mut turned, list, place)?;
    }
    Ok(turned)
}
