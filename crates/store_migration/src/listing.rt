//! Lists of version 1, put in their places as lists for all certificates.

ghost use Rattle.std.specs.Prelude.{◌≢◌, ◌<◌, ◌^◌, Err, IfOk, OnOk};
ghost use Rattle.std.specs.List.Sorted.{IsNonDecreasingBy};
ghost use Rattle.statements_facts.specs.Listed.{IsAscending};
ghost use Rattle.store_sql.specs.Statements.{CommitsNothing};
ghost use Rattle.store_rows.specs.Holding.{FitInList};
ghost use Rattle.store_sql.specs.Inside.{inside, IsInTransaction, KeepsReference};
ghost use Rattle.store_migration.specs.Grouped.{HasReasonsOf};
ghost use Rattle.store_migration.specs.Moves.{with_unscoped, HasRoomForList, MovesAll, MovesAllForCause, MovesList, MovesListForCause, MovesLists, MovesListsForCause};
ghost use Rattle.store_rows.specs.Steps.{CausedIfRoomIn, ChangesIn};

use crate::grouped::IssuersEntry;
use crate::grouping::{by_issuer, entries_of};
use asn::Number20;
use sqlite::{Alter, Transaction};
use statements_facts::{RevokedSerials, Scope};
use std::alloc::{AllocError, Global};
use store_adoption::{UnscopedList, UnscopedLists};
use store_rows::{ID_LIMIT, ListKey, replace_crl, replace_entries};
use store_sql::StoreFault;

fn revoked_of<'a>(
    alloc: Global,
    sorted: &[IssuersEntry<'a>],
    issuer: u32,
) -> Result<RevokedSerials<'a>, StoreFault>
    requires { IsNonDecreasingBy (λ entry. entry.issuer) sorted.now }
    ensures reasons { IfOk result (HasReasonsOf sorted.now issuer) }
    ensures ascend { IfOk result (λ revoked. IsAscending revoked) }
    ensures memory { result ≢ Err StoreFault.Schema }
    ensures no_store { result ≢ Err StoreFault.Store }
{
    let listed = entries_of(alloc, sorted, issuer)?;
    Ok(RevokedSerials::of_entries(listed)?)
}

/// A CRL number is below 2^160.
fn is_numbered(number: Number20)
    ensures { number < 2 ^ 160 }
{
    let _same = Number20::from_octets(number.to_octets());
}

/// Puts a list, with its entries.
fn put_revoked<S: Alter>(
    tx: &mut Transaction<'_, S>,
    list: &UnscopedList,
    revoked: &RevokedSerials<'_>,
) -> Result<(), StoreFault>
    requires issuer { list.now.issuer < 536870911 }
    requires inside { IsInTransaction S.Store tx.old }
    ensures same_reference { KeepsReference tx.old tx.new }
    ensures formed { OnOk result (FitInList revoked.now) }
    ensures changes { ChangesIn S.Store tx.old tx.new (with_unscoped list.now revoked.now) result }
    ensures caused { CausedIfRoomIn S.Store tx.old tx.new (HasRoomForList revoked.now) result }
    ensures survives { CommitsNothing (inside S.Store tx.old) (inside S.Store tx.new) }
{
    let head = list.head;
    is_numbered(head.number);
    let key = ListKey {
        issuer: list.issuer,
        scope: Scope::All,
    };
    replace_crl(tx, key.issuer, key.scope, &head)?;
    replace_entries(tx, &key, revoked)
}

/// Puts a list in its place, with its entries.
fn put_list<S: Alter>(
    alloc: Global,
    tx: &mut Transaction<'_, S>,
    list: &UnscopedList,
    sorted: &[IssuersEntry<'_>],
) -> Result<(), StoreFault>
    requires rise { IsNonDecreasingBy (λ entry. entry.issuer) sorted.now }
    requires inside { IsInTransaction S.Store tx.old }
    ensures same_reference { KeepsReference tx.old tx.new }
    ensures puts { MovesList S.Store tx.old tx.new list.now sorted.now result }
    ensures caused { MovesListForCause S.Store tx.old tx.new list.now sorted.now result }
    ensures survives { CommitsNothing (inside S.Store tx.old) (inside S.Store tx.new) }
{
    if list.issuer >= ID_LIMIT {
        return Err(StoreFault::Store);
    }
    let revoked = revoked_of(alloc, sorted, list.issuer)?;
    put_revoked(tx, list, &revoked)?;
    Ok(())
}

/// Puts lists in their places, one after the other.
fn put_each<S: Alter>(
    alloc: Global,
    tx: &mut Transaction<'_, S>,
    lists: &[UnscopedList],
    sorted: &[IssuersEntry<'_>],
) -> Result<(), StoreFault>
    requires rise { IsNonDecreasingBy (λ entry. entry.issuer) sorted.now }
    requires inside { IsInTransaction S.Store tx.old }
    ensures same_reference { KeepsReference tx.old tx.new }
    ensures puts { MovesLists S.Store tx.old tx.new lists.now sorted.now result }
    ensures caused { MovesListsForCause S.Store tx.old tx.new lists.now sorted.now result }
    ensures survives { CommitsNothing (inside S.Store tx.old) (inside S.Store tx.new) }
{
    'each: for list in lists {
        put_list(alloc, tx, list, sorted)?;
    }
    Ok(())
}

/// Puts all lists in their places.
pub(crate) fn put_lists<S: Alter>(
    alloc: Global,
    tx: &mut Transaction<'_, S>,
    all: &UnscopedLists,
) -> Result<(), StoreFault>
    requires inside { IsInTransaction S.Store tx.old }
    ensures same_reference { KeepsReference tx.old tx.new }
    ensures puts { MovesAll S.Store tx.old tx.new all.now result }
    ensures caused { MovesAllForCause S.Store tx.old tx.new all.now result }
    ensures survives { CommitsNothing (inside S.Store tx.old) (inside S.Store tx.new) }
{
    let sorted = by_issuer(alloc, all.entries.as_slice())?;
    put_each(alloc, tx, all.lists.as_slice(), sorted.as_slice())
}
