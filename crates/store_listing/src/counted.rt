//! Revocation lists, and how many entries each has.

ghost use Rattle.std.specs.Prelude.{◌≡◌, ◌≢◌, ◌≤◌, OnOk, IfOk, Err, map};
ghost use Rattle.store_rows.specs.Contents.{scope_number};
ghost use Rattle.store_listing.specs.Counts.{held_count, list_number, CountsOneMore};
ghost use Rattle.store_listing.specs.Listing.{seen_keyed, seen_held_list, with_count};

use crate::held::HeldList;
use std::alloc::{AllocError, Global};
use std::collections::BTreeMap;
use store_rows::{Head, ListKey, scope_number};
use store_sql::StoreFault;

/// A list has room for so many entries.
const ROOM: u64 = 4_294_967_296;

/// A list, without its entries.
#[derive(Clone, Copy)]
pub(crate) struct KeyedHead {
    pub(crate) list: ListKey,
    pub(crate) head: Head,
}

/// The number of a list: the places of its entries begin at 2^32 times this.
pub(crate) fn list_number(issuer: u32, scope: u32) -> u64
    ensures { result ≡ list_number issuer scope }
{
    u64::from(issuer) * 4 + u64::from(scope)
}

/// How many entries of the list with this number were counted. It looks at log n of n lists.
fn count_of(counts: &BTreeMap<u64, u64>, list: u64) -> u64
    ensures { result ≡ held_count counts.now list }
{
    match counts.get(&list) {
        Some(count) => *count,
        None => 0,
    }
}

/// Counts one more entry of a list; `StoreFault::Schema` if the list has room for no more.
pub(crate) fn count_one(counts: &mut BTreeMap<u64, u64>, list: u64) -> Result<(), StoreFault>
    ensures ok { OnOk result (CountsOneMore counts.old counts.new list) }
    ensures full { result ≡ Err StoreFault.Schema → 4294967296 ≤ held_count counts.old list }
    ensures cell { result ≢ Err StoreFault.Store }
{
    let count = count_of(counts, list);
    if count >= ROOM {
        return Err(StoreFault::Schema);
    }
    counts.insert(list, count + 1)?;
    Ok(())
}

fn with_count(keyed: &KeyedHead, counts: &BTreeMap<u64, u64>) -> HeldList
    ensures { seen_held_list result ≡ with_count (held_count counts.now) (seen_keyed keyed.now) }
{
    let list = keyed.list;
    let number = list_number(list.issuer, u32::from(scope_number(list.scope)));
    HeldList {
        issuer: list.issuer,
        scope: list.scope,
        head: keyed.head,
        entries: count_of(counts, number),
    }
}

/// The lists, each with the count of its entries, in n log n.
pub(crate) fn with_counts(
    alloc: Global,
    heads: &[KeyedHead],
    counts: &BTreeMap<u64, u64>,
) -> Result<Vec<HeldList>, AllocError>
    ensures { IfOk result (λ lists. map seen_held_list lists.items
        ≡ map (with_count (held_count counts.now)) (map seen_keyed heads.now)) }
{
    let mut lists = Vec::with_capacity(alloc, heads.len())?;
    'each: for keyed in heads {
        lists.push(with_count(keyed, counts))?;
    }
    Ok(lists)
}
