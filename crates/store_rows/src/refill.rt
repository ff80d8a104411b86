//! The entries of a list, in the place of those that stood there.

ghost use Rattle.std.specs.Prelude.{◌≡◌, ◌<◌, ◌≤◌, ◌+◌, pos, OnOk, length, map};
ghost use Rattle.std.specs.List.{AllByRecursion};
ghost use Rattle.sqlite.specs.Values.{bound};
ghost use Rattle.statements_facts.specs.Listed.{seen_listed};
ghost use Rattle.store_sql.specs.Statements.{CommitsNothing};
ghost use Rattle.store_rows.specs.Contents.{scope_number};
ghost use Rattle.store_rows.specs.Holding.{FitInList, HasByte, with_listed};
ghost use Rattle.store_sql.specs.Inside.{inside, IsInTransaction, KeepsReference, RunsIn};
ghost use Rattle.store_rows.specs.Bound.{first_place, room_deletion, insertion_at, columns_in};
ghost use Rattle.store_rows.specs.Room.{EntriesFit};
ghost use Rattle.store_rows.specs.Steps.{CausedIfRoomIn, ChangesIn};

use crate::crl::scope_number;
use crate::entry::{ListKey, ROOM, base_of, signed};
use sqlite::types::ValueRef;
use sqlite::{Alter, Error, Transaction};
use statements_facts::{Listed, RevokedSerials};
use std::alloc::AllocError;
use store_sql::{
    EntryCells, GROUP, Places, StoreFault, delete_entries, insert_entries, insert_entry,
    push_columns,
};

fn places_of(list: &ListKey) -> Places
    requires { list.now.issuer < 536870911 }
    ensures first { result.first ≡ pos (first_place list.now) }
    ensures end { result.end ≡ pos (first_place list.now + 4294967296) }
{
    let first = base_of(list);
    Places {
        first: signed(first),
        end: signed(first + ROOM),
    }
}

fn cells_of<'a>(list: &ListKey, index: u64, listed: &Listed<'a>) -> EntryCells<'a>
    requires issuer { list.now.issuer < 536870911 }
    requires index { index < 4294967296 }
    ensures place { result.place ≡ pos (first_place list.now + index) }
    ensures issuer { result.issuer ≡ pos list.now.issuer }
    ensures scope { result.scope ≡ pos (scope_number list.now.scope) }
    ensures serial { result.serial.now ≡ (seen_listed listed.now).serial }
    ensures reason { result.reason ≡ pos (seen_listed listed.now).reason }
    ensures byte { HasByte (seen_listed listed.now) }
{
    EntryCells {
        place: signed(base_of(list) + index),
        issuer: i64::from(list.issuer),
        scope: i64::from(scope_number(list.scope)),
        serial: listed.serial,
        reason: i64::from(listed.reason),
    }
}

fn empty<S: Alter>(tx: &mut Transaction<'_, S>, list: &ListKey) -> Result<usize, Error>
    requires { list.now.issuer < 536870911 }
    ensures same_reference { KeepsReference tx.old tx.new }
    ensures runs { RunsIn S.Store tx.old tx.new (room_deletion list.now) result }
    ensures survives { CommitsNothing (inside S.Store tx.old) (inside S.Store tx.new) }
{
    let places = places_of(list);
    delete_entries(tx, &places)
}

fn add<S: Alter>(
    tx: &mut Transaction<'_, S>,
    list: &ListKey,
    index: u64,
    listed: &Listed<'_>,
) -> Result<usize, Error>
    requires issuer { list.now.issuer < 536870911 }
    requires index { index < 4294967296 }
    ensures same_reference { KeepsReference tx.old tx.new }
    ensures runs { RunsIn S.Store tx.old tx.new (insertion_at list.now index listed.now) result }
    ensures byte { HasByte (seen_listed listed.now) }
    ensures survives { CommitsNothing (inside S.Store tx.old) (inside S.Store tx.new) }
{
    let cells = cells_of(list, index, listed);
    insert_entry(tx, &cells)
}

/// The columns of a group of entries, which stand from this index on.
fn fill_columns<'a>(
    columns: &mut Vec<ValueRef<'a>>,
    list: &ListKey,
    index: u64,
    group: &[Listed<'a>],
) -> Result<(), AllocError>
    requires issuer { list.now.issuer < 536870911 }
    requires index { index + length group.now ≤ 4294967296 }
    ensures columns { OnOk result
        (bound columns.new.items ≡ columns_in list.now index (map seen_listed group.now)) }
    ensures bytes { OnOk result (AllByRecursion HasByte (map seen_listed group.now)) }
{
    columns.clear();
    let mut place = index;
    'each: for listed in group {
        push_columns(columns, &cells_of(list, place, listed))?;
        place += 1;
    }
    Ok(())
}

/// Replaces the entries of a list. They are inserted in groups of eight; those that are left over, one at a time.
pub fn replace_entries<S: Alter>(
    tx: &mut Transaction<'_, S>,
    list: &ListKey,
    revoked: &RevokedSerials<'_>,
) -> Result<(), StoreFault>
    requires issuer { list.now.issuer < 536870911 }
    requires inside { IsInTransaction S.Store tx.old }
    ensures same_reference { KeepsReference tx.old tx.new }
    ensures formed { OnOk result (FitInList revoked.now) }
    ensures changes { ChangesIn S.Store tx.old tx.new (with_listed list.now revoked.now) result }
    ensures caused { CausedIfRoomIn S.Store tx.old tx.new
        (λ _. EntriesFit revoked.now) result }
    ensures survives { CommitsNothing (inside S.Store tx.old) (inside S.Store tx.new) }
{
    let all = revoked.as_slice();
    if all.len() as u64 > ROOM {
        return Err(StoreFault::Store);
    }
    empty(tx, list)?;
    let mut columns = Vec::new(revoked.allocator());
    let mut index = 0;
    'groups: while all.len() - index >= GROUP {
        let group = &all[index..index + GROUP];
        fill_columns(&mut columns, list, index as u64, group)?;
        insert_entries(tx, &columns)?;
        index += GROUP;
    }
    'rest: while index < all.len() {
        add(tx, list, index as u64, &all[index])?;
        index += 1;
    }
    Ok(())
}
