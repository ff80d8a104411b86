//! A new store.

ghost use Rattle.std.specs.Prelude.{◌≡◌, false, Err};
ghost use Rattle.sqlite.specs.Held.{state};
ghost use Rattle.store_adoption.specs.Creates.{IsSettled, HasTables, CreatesOn, CreatesForCause, MayLeaveEmptyStore};
ghost use Rattle.store_sql.specs.Statements.{IsDurable};

use sqlite::{Alter, Connection};
use statements_facts::Profile;
use store_maps::make;
use store_sql::{StoreFault, is_empty};

fn make_committed<S: Alter>(conn: &mut Connection<S>, profile: Profile) -> Result<(), StoreFault>
    requires idle { conn.old.in_transaction ≡ false }
    ensures idle { conn.new.in_transaction ≡ false }
    ensures tables { HasTables (state S.Store conn.old).now → result ≡ Err StoreFault.Store }
    ensures creates { CreatesOn S.Store profile conn.old conn.new result }
    ensures caused { CreatesForCause S.Store conn.old conn.new result }
    ensures crash { MayLeaveEmptyStore profile (state S.Store conn.old) (state S.Store conn.new) }
{
    if !is_empty(conn.schema()) {
        return Err(StoreFault::Store);
    }
    let mut tx = conn.transaction();
    make(&mut tx, profile)?;
    tx.commit()?;
    Ok(())
}

/// Makes a store of this profile in an empty database, in one transaction. It holds nothing. Where a table stands there already, that is
/// `StoreFault::Store`.
pub fn create<S: Alter>(conn: &mut Connection<S>, profile: Profile) -> Result<(), StoreFault>
    requires idle { conn.old.in_transaction ≡ false }
    ensures idle { conn.new.in_transaction ≡ false }
    ensures tables { HasTables (state S.Store conn.old).now → result ≡ Err StoreFault.Store }
    ensures creates { CreatesOn S.Store profile conn.old conn.new result }
    ensures caused { CreatesForCause S.Store conn.old conn.new result }
    ensures settled { IsSettled (state S.Store conn.old) × IsSettled (state S.Store conn.new) }
    ensures durable { IsDurable (state S.Store conn.new) }
    ensures crash { MayLeaveEmptyStore profile (state S.Store conn.old) (state S.Store conn.new) }
{
    let _before = conn.is_autocommit();
    let made = make_committed(conn, profile);
    let _after = conn.is_autocommit();
    made
}
