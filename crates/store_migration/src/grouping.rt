//! Entries of version 1, those of each issuer behind one another.

ghost use Rattle.std.specs.Prelude.{◌≡◌, ◌==◌, IfOk, filter, map};
ghost use Rattle.std.specs.List.Sorted.{IsNonDecreasingBy};
ghost use Rattle.store_adoption.specs.Seen.{seen_own};
ghost use Rattle.store_migration.specs.Grouped.{seen_unscoped_entry, KeepsLists, AreListedUnder};

use crate::grouped::IssuersEntry;
use statements_facts::Listed;
use std::alloc::{AllocError, Global};
use store_adoption::OwnEntry;

/// The entries as they stand.
fn in_place<'a>(alloc: Global, entries: &'a [OwnEntry]) -> Result<Vec<IssuersEntry<'a>>, AllocError>
    ensures { IfOk result (λ all. map seen_unscoped_entry all.items ≡ map seen_own entries.now) }
{
    let mut all = Vec::with_capacity(alloc, entries.len())?;
    'each: for entry in entries {
        all.push(IssuersEntry {
            issuer: entry.issuer,
            listed: Listed {
                serial: entry.serial.as_slice(),
                reason: entry.reason,
            },
        })?;
    }
    Ok(all)
}

/// The entries by the ids of their issuers; those of one issuer stay in their order.
fn sorted_by_issuer(all: Vec<IssuersEntry<'_>>) -> Result<Vec<IssuersEntry<'_>>, AllocError>
    ensures rise { IfOk result (λ sorted. IsNonDecreasingBy (λ entry. entry.issuer) sorted.items) }
    ensures same { IfOk result (KeepsLists (map seen_unscoped_entry all.entry.items)) }
{
    let mut all = all;
    all.sort_by_key(|entry| entry.issuer)?;
    Ok(all)
}

/// The entries, those of each issuer behind one another, in n log n.
pub(crate) fn by_issuer<'a>(
    alloc: Global,
    entries: &'a [OwnEntry],
) -> Result<Vec<IssuersEntry<'a>>, AllocError>
    ensures rise { IfOk result (λ sorted. IsNonDecreasingBy (λ entry. entry.issuer) sorted.items) }
    ensures same { IfOk result (KeepsLists (map seen_own entries.now)) }
{
    let all = in_place(alloc, entries)?;
    sorted_by_issuer(all)
}

/// Those of one issuer, found by halving.
fn run_of<'s, 'a>(sorted: &'s [IssuersEntry<'a>], issuer: u32) -> &'s [IssuersEntry<'a>]
    requires { IsNonDecreasingBy (λ entry. entry.issuer) sorted.now }
    ensures { result.now ≡ filter (λ entry. entry.issuer == issuer) sorted.now }
{
    let start = sorted.partition_point(|entry| entry.issuer < issuer);
    let behind = &sorted[start..];
    let end = behind.partition_point(|entry| entry.issuer <= issuer);
    &behind[..end]
}

/// The entries of an issuer's list.
pub(crate) fn entries_of<'a>(
    alloc: Global,
    sorted: &[IssuersEntry<'a>],
    issuer: u32,
) -> Result<Vec<Listed<'a>>, AllocError>
    requires { IsNonDecreasingBy (λ entry. entry.issuer) sorted.now }
    ensures { IfOk result (AreListedUnder sorted.now issuer) }
{
    let run = run_of(sorted, issuer);
    let mut listed = Vec::with_capacity(alloc, run.len())?;
    'each: for entry in run {
        listed.push(entry.listed)?;
    }
    Ok(listed)
}
