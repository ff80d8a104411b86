//! The tables of version 2, beside those of version 1.

ghost use Rattle.store_sql.specs.Statements.{CommitsNothing};
ghost use Rattle.store_sql.specs.Inside.{inside, IsInTransaction, KeepsReference};
ghost use Rattle.store_migration.specs.Moves.{AddsTables, Prepares, PreparesForCause, SetsVersion, SetsVersionForCause};

use sqlite::{Alter, Transaction};
use statements_facts::Profile;
use store_rows::insert_version_of;
use store_sql::{StoreFault, create_scoped_crls, create_scoped_entries, delete_version};

fn make_tables<S: Alter>(tx: &mut Transaction<'_, S>) -> Result<(), StoreFault>
    requires inside { IsInTransaction S.Store tx.old }
    ensures same_reference { KeepsReference tx.old tx.new }
    ensures makes { AddsTables S.Store tx.old tx.new result }
    ensures caused { PreparesForCause S.Store tx.old tx.new result }
    ensures survives { CommitsNothing (inside S.Store tx.old) (inside S.Store tx.new) }
{
    create_scoped_crls(tx)?;
    create_scoped_entries(tx)?;
    Ok(())
}

fn set_version<S: Alter>(tx: &mut Transaction<'_, S>) -> Result<(), StoreFault>
    requires inside { IsInTransaction S.Store tx.old }
    ensures same_reference { KeepsReference tx.old tx.new }
    ensures sets { SetsVersion S.Store tx.old tx.new result }
    ensures caused { SetsVersionForCause S.Store tx.old tx.new result }
    ensures survives { CommitsNothing (inside S.Store tx.old) (inside S.Store tx.new) }
{
    delete_version(tx)?;
    insert_version_of(tx, Profile::Stated)?;
    Ok(())
}

/// Makes the tables of version 2, and sets the version. No list is in them yet.
pub(crate) fn prepare<S: Alter>(tx: &mut Transaction<'_, S>) -> Result<(), StoreFault>
    requires inside { IsInTransaction S.Store tx.old }
    ensures same_reference { KeepsReference tx.old tx.new }
    ensures prepares { Prepares S.Store tx.old tx.new result }
    ensures caused { PreparesForCause S.Store tx.old tx.new result }
    ensures survives { CommitsNothing (inside S.Store tx.old) (inside S.Store tx.new) }
{
    make_tables(tx)?;
    set_version(tx)
}
