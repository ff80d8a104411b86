//! The migration, in one transaction.

ghost use Rattle.std.specs.Prelude.{◌≡◌, false, Err};
ghost use Rattle.sqlite.specs.Held.{state};
ghost use Rattle.store_sql.specs.Statements.{CommitsNothing, IsDurable};
ghost use Rattle.store_adoption.specs.Creates.{IsSettled};
ghost use Rattle.store_adoption.specs.Inspects.{LacksVersion1};
ghost use Rattle.store_sql.specs.Inside.{inside, IsInTransaction, KeepsReference};
ghost use Rattle.store_migration.specs.Moves.{BecomesStore, BecomesStoreForCause};
ghost use Rattle.store_migration.specs.Migrates.{MayLeaveMigrated, MayLeaveMoved, MigratesForCause, MigratesListsForCause, MigratesListsOn, MigratesOn};

use crate::listing::put_lists;
use crate::preparing::prepare;
use sqlite::{Alter, Connection, Transaction};
use std::alloc::Global;
use store_adoption::{UnscopedLists, read_version_1};
use store_sql::StoreFault;

fn move_lists<S: Alter>(
    alloc: Global,
    tx: &mut Transaction<'_, S>,
    all: &UnscopedLists,
) -> Result<(), StoreFault>
    requires inside { IsInTransaction S.Store tx.old }
    ensures same_reference { KeepsReference tx.old tx.new }
    ensures moves { BecomesStore S.Store tx.old tx.new all.now result }
    ensures caused { BecomesStoreForCause S.Store tx.old tx.new all.now result }
    ensures survives { CommitsNothing (inside S.Store tx.old) (inside S.Store tx.new) }
{
    prepare(tx)?;
    put_lists(alloc, tx, all)?;
    Ok(())
}

/// The lists move in one transaction, which begins and ends here.
fn move_committed<S: Alter>(
    alloc: Global,
    conn: &mut Connection<S>,
    all: &UnscopedLists,
) -> Result<(), StoreFault>
    requires idle { conn.old.in_transaction ≡ false }
    ensures idle { conn.new.in_transaction ≡ false }
    ensures moves { MigratesListsOn S.Store conn.old conn.new all.now result }
    ensures caused { MigratesListsForCause S.Store conn.old conn.new all.now result }
    ensures crash { MayLeaveMoved (state S.Store conn.old) (state S.Store conn.new) all.now }
{
    let mut tx = conn.transaction();
    move_lists(alloc, &mut tx, all)?;
    tx.commit()?;
    Ok(())
}

fn migrate_idle<S: Alter>(alloc: Global, conn: &mut Connection<S>) -> Result<(), StoreFault>
    requires idle { conn.old.in_transaction ≡ false }
    ensures idle { conn.new.in_transaction ≡ false }
    ensures tables { LacksVersion1 (state S.Store conn.old).now → result ≡ Err StoreFault.Schema }
    ensures migrates { MigratesOn S.Store conn.old conn.new result }
    ensures caused { MigratesForCause S.Store conn.old conn.new result }
    ensures crash { MayLeaveMigrated (state S.Store conn.old) (state S.Store conn.new) }
{
    let all = read_version_1(alloc, conn)?;
    move_committed(alloc, conn, &all)?;
    Ok(())
}

/// Makes a store of version 2 of one of version 1, in one transaction: each list of version 1 is then one for all certificates, and
/// what is held is the same. `StoreFault::Schema` if the tables are not those of version 1, or hold what version 1 does not write.
pub fn migrate<S: Alter>(alloc: Global, conn: &mut Connection<S>) -> Result<(), StoreFault>
    requires idle { conn.old.in_transaction ≡ false }
    ensures idle { conn.new.in_transaction ≡ false }
    ensures tables { LacksVersion1 (state S.Store conn.old).now → result ≡ Err StoreFault.Schema }
    ensures migrates { MigratesOn S.Store conn.old conn.new result }
    ensures caused { MigratesForCause S.Store conn.old conn.new result }
    ensures settled { IsSettled (state S.Store conn.old) × IsSettled (state S.Store conn.new) }
    ensures durable { IsDurable (state S.Store conn.new) }
    ensures crash { MayLeaveMigrated (state S.Store conn.old) (state S.Store conn.new) }
{
    let _before = conn.is_autocommit();
    let done = migrate_idle(alloc, conn);
    let _after = conn.is_autocommit();
    done
}
