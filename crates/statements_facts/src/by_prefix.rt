//! Entries sorted by the first octets of their serial numbers.

ghost use Rattle.std.specs.Prelude.{◌≡◌, ℕ, List, IfOk, IsTrue, map};
ghost use Rattle.std.specs.List.Sorted.{IsPermutation};
ghost use Rattle.statements_facts.specs.Listed.{HasLessSerial, IsAscending, first_reason, seen_listed};
ghost use Rattle.statements_facts.specs.Prefixed.{seen_prefixed};

use crate::prefix::{prefix_laws, prefix_of};
use crate::prefixed::Prefixed;
use crate::revoked::Listed;
use std::alloc::{AllocError, Global};

/// The entries, each beside its prefix.
pub(crate) fn beside_prefixes<'a>(
    alloc: Global,
    listed: &[Listed<'a>],
) -> Result<Vec<Prefixed<'a>>, AllocError>
    ensures { IfOk result (λ all. map seen_prefixed all.items ≡ map seen_listed listed.now) }
{
    let mut all = Vec::with_capacity(alloc, listed.len())?;
    'each: for entry in listed {
        all.push(Prefixed {
            prefix: prefix_of(entry.serial),
            listed: *entry,
        })?;
    }
    Ok(all)
}

/// The entries alone, in the memory of these.
pub(crate) fn without_prefixes<'a>(
    listed: Vec<Listed<'a>>,
    all: &[Prefixed<'a>],
) -> Result<Vec<Listed<'a>>, AllocError>
    ensures { IfOk result (λ left. map seen_listed left.items ≡ map seen_prefixed all.now) }
{
    let mut left = listed;
    left.clear();
    'each: for entry in all {
        left.push(entry.listed)?;
    }
    Ok(left)
}

/// Arranged by their prefixes, those with one prefix in any order. It takes no memory.
pub(crate) fn arranged_by_prefix(all: Vec<Prefixed<'_>>) -> Vec<Prefixed<'_>>
    ensures { IsPermutation all.entry.items result.items }
{
    let mut all = all;
    all.sort_unstable_by_key(|entry| entry.prefix);
    all
}

/// Sorted by their prefixes; those with one prefix stay in their order.
pub(crate) fn sorted_by_prefix(all: Vec<Prefixed<'_>>) -> Result<Vec<Prefixed<'_>>, AllocError>
    ensures { IfOk result (λ sorted. (serial : List ℕ) →
        first_reason (map seen_prefixed sorted.items) serial
        ≡ first_reason (map seen_prefixed all.entry.items) serial) }
{
    let mut all = all;
    all.sort_by_key(|entry| entry.prefix)?;
    Ok(all)
}

/// Whether the serial number of the one is less. It is not looked at if its prefix is less.
fn precedes(one: &Prefixed<'_>, other: &Prefixed<'_>) -> bool
    ensures { IsTrue result → HasLessSerial (seen_prefixed one.now) (seen_prefixed other.now) }
{
    let (serial, next) = (one.listed.serial, other.listed.serial);
    if one.prefix < other.prefix {
        prefix_laws(serial, next);
        return true;
    }
    one.prefix == other.prefix && serial.cmp(next).is_lt()
}

/// Whether the serial numbers ascend, by their prefixes if these differ.
pub(crate) fn prefixes_ascend(all: &[Prefixed<'_>]) -> bool
    ensures { IsTrue result → IsAscending (map seen_prefixed all.now) }
{
    for place in 1..all.len() {
        if !precedes(&all[place - 1], &all[place]) {
            return false;
        }
    }
    true
}
