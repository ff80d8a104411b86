//! A new store.

ghost use Rattle.store_sql.specs.Statements.{CommitsNothing};
ghost use Rattle.store_sql.specs.Inside.{inside, IsInTransaction, KeepsReference};
ghost use Rattle.store_sql.specs.Tables.{no_schema};
ghost use Rattle.store_rows.specs.Making.{BuildsForCauseIn};
ghost use Rattle.store_maps.specs.Creation.{MakesStoreIn};

use sqlite::{Alter, Transaction};
use statements_facts::Profile;
use store_rows::make_tables;
use store_sql::StoreFault;

/// Makes a store of this profile in an empty database, which holds nothing. The rows are those of `make_tables`; the clause here says what they hold.
pub fn make<S: Alter>(tx: &mut Transaction<'_, S>, profile: Profile) -> Result<(), StoreFault>
    requires inside { IsInTransaction S.Store tx.old }
    ensures same_reference { KeepsReference tx.old tx.new }
    ensures makes { MakesStoreIn S.Store tx.old tx.new profile result }
    ensures caused { BuildsForCauseIn S.Store tx.old tx.new no_schema result }
    ensures survives { CommitsNothing (inside S.Store tx.old) (inside S.Store tx.new) }
{
    make_tables(tx, profile)?;
    Ok(())
}
