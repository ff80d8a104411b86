//! A store becomes one of the wide profile, in one transaction.

ghost use Rattle.std.specs.Prelude.{◌≡◌, false, Err};
ghost use Rattle.sqlite.specs.Held.{state};
ghost use Rattle.store_sql.specs.Inside.{inside, IsInTransaction, KeepsReference};
ghost use Rattle.store_sql.specs.Statements.{CommitsNothing, IsDurable};
ghost use Rattle.store_adoption.specs.Creates.{IsSettled};
ghost use Rattle.store_adoption.specs.Inspects.{LacksVersion2};
ghost use Rattle.store_migration.specs.Widens.{BecomesWide, BecomesWideForCause, MayLeaveWidened, WidensForCause, WidensOn};

use sqlite::{Alter, Connection, Transaction};
use statements_facts::Profile;
use store_rows::insert_version_of;
use store_sql::{StoreFault, delete_version, origin_of};

fn set_wide<S: Alter>(tx: &mut Transaction<'_, S>) -> Result<(), StoreFault>
    requires inside { IsInTransaction S.Store tx.old }
    ensures same_reference { KeepsReference tx.old tx.new }
    ensures widens { BecomesWide S.Store tx.old tx.new result }
    ensures caused { BecomesWideForCause S.Store tx.old tx.new result }
    ensures survives { CommitsNothing (inside S.Store tx.old) (inside S.Store tx.new) }
{
    delete_version(tx)?;
    insert_version_of(tx, Profile::Wide)?;
    Ok(())
}

fn widen_idle<S: Alter>(conn: &mut Connection<S>) -> Result<(), StoreFault>
    requires idle { conn.old.in_transaction ≡ false }
    ensures idle { conn.new.in_transaction ≡ false }
    ensures tables { LacksVersion2 (state S.Store conn.old).now → result ≡ Err StoreFault.Schema }
    ensures widens { WidensOn S.Store conn.old conn.new result }
    ensures caused { WidensForCause S.Store conn.old conn.new result }
    ensures crash { MayLeaveWidened (state S.Store conn.old) (state S.Store conn.new) }
{
    if origin_of(conn.schema()).is_none() {
        return Err(StoreFault::Schema);
    }
    let mut tx = conn.transaction();
    set_wide(&mut tx)?;
    tx.commit()?;
    Ok(())
}

/// Makes a store one of the wide profile, in one transaction: what is held is the same, and a store that is wide already stays as it is.
/// `StoreFault::Schema` if the tables are not those of a store. Rows are not read.
pub fn widen<S: Alter>(conn: &mut Connection<S>) -> Result<(), StoreFault>
    requires idle { conn.old.in_transaction ≡ false }
    ensures idle { conn.new.in_transaction ≡ false }
    ensures tables { LacksVersion2 (state S.Store conn.old).now → result ≡ Err StoreFault.Schema }
    ensures widens { WidensOn S.Store conn.old conn.new result }
    ensures caused { WidensForCause S.Store conn.old conn.new result }
    ensures settled { IsSettled (state S.Store conn.old) × IsSettled (state S.Store conn.new) }
    ensures durable { IsDurable (state S.Store conn.new) }
    ensures crash { MayLeaveWidened (state S.Store conn.old) (state S.Store conn.new) }
{
    let _before = conn.is_autocommit();
    let done = widen_idle(conn);
    let _after = conn.is_autocommit();
    done
}
