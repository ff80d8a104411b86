//! The entries of a list, beside others.

ghost use Rattle.std.specs.Prelude.{◌≡◌, ◌<◌, ◌≤◌, ◌↔◌, length, IsTrue};
ghost use Rattle.statements_facts.specs.Listed.{IsAscending};
ghost use Rattle.store_sql.specs.Statements.{CommitsNothing};
ghost use Rattle.store_sql.specs.Inside.{inside, IsInTransaction, KeepsReference};
ghost use Rattle.store_rows.specs.Found.{TellsEntryAt, TellsEndAt, TellsEntries};
ghost use Rattle.store_rows.specs.Steps.{FindsIn, CausedIn, CausedOrIn};

use crate::beside::SerialAtPlace;
use crate::entry::{ListKey, ROOM, stands_at};
use sqlite::{Alter, Transaction};
use statements_facts::{Listed, RevokedSerials};
use store_sql::StoreFault;

fn is_same(beside: SerialAtPlace, reason: u8) -> bool
    ensures { IsTrue result ↔ (beside ≡ SerialAtPlace.Same reason) }
{
    match beside {
        SerialAtPlace::Same(there) => there == reason,
        _ => false,
    }
}

fn is_nothing(beside: SerialAtPlace) -> bool
    ensures { IsTrue result ↔ (beside ≡ SerialAtPlace.Nothing) }
{
    match beside {
        SerialAtPlace::Nothing => true,
        _ => false,
    }
}

/// Whether the list has this entry at this index.
fn has_at<S: Alter>(
    tx: &mut Transaction<'_, S>,
    list: &ListKey,
    index: u64,
    listed: &Listed<'_>,
) -> Result<bool, StoreFault>
    requires issuer { list.now.issuer < 536870911 }
    requires index { index < 4294967296 }
    requires inside { IsInTransaction S.Store tx.old }
    ensures same_reference { KeepsReference tx.old tx.new }
    ensures finds { FindsIn S.Store tx.old tx.new (TellsEntryAt list.now index listed.now) result }
    ensures caused { CausedIn S.Store tx.old tx.new result }
    ensures survives { CommitsNothing (inside S.Store tx.old) (inside S.Store tx.new) }
{
    let beside = stands_at(tx, list, index, listed.serial)?;
    Ok(is_same(beside, listed.reason))
}

/// Whether the list has nothing at this index.
fn ends_at<S: Alter>(
    tx: &mut Transaction<'_, S>,
    list: &ListKey,
    index: u64,
) -> Result<bool, StoreFault>
    requires issuer { list.now.issuer < 536870911 }
    requires index { index < 4294967296 }
    requires inside { IsInTransaction S.Store tx.old }
    ensures same_reference { KeepsReference tx.old tx.new }
    ensures finds { FindsIn S.Store tx.old tx.new (TellsEndAt list.now index) result }
    ensures caused { CausedIn S.Store tx.old tx.new result }
    ensures survives { CommitsNothing (inside S.Store tx.old) (inside S.Store tx.new) }
{
    let beside = stands_at(tx, list, index, &[])?;
    Ok(is_nothing(beside))
}

/// Whether the entries of a list are these: a look-up for each, up to the first that is another. Both ascend, so that nothing
/// is sorted, and no list is read into memory.
pub fn has_entries<S: Alter>(
    tx: &mut Transaction<'_, S>,
    list: &ListKey,
    revoked: &RevokedSerials<'_>,
) -> Result<bool, StoreFault>
    requires issuer { list.now.issuer < 536870911 }
    requires inside { IsInTransaction S.Store tx.old }
    ensures same_reference { KeepsReference tx.old tx.new }
    ensures finds { FindsIn S.Store tx.old tx.new (TellsEntries list.now revoked.now) result }
    ensures ascend { IsAscending revoked.now }
    ensures caused { CausedOrIn S.Store tx.old tx.new
        (λ _. 4294967296 ≤ length revoked.now) result }
    ensures survives { CommitsNothing (inside S.Store tx.old) (inside S.Store tx.new) }
{
    let all = revoked.as_slice();
    let count = all.len() as u64;
    if count >= ROOM {
        return Err(StoreFault::Store);
    }
    let mut index = 0;
    'each: for listed in all {
        if !has_at(tx, list, index, listed)? {
            return Ok(false);
        }
        index += 1;
    }
    ends_at(tx, list, count)
}
