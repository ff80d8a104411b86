//! The tables of a new store.

ghost use Rattle.std.specs.Prelude.{pos};
ghost use Rattle.store_sql.specs.declared.origin.Origin.TheVariants.{Made};
ghost use Rattle.store_sql.specs.Statements.{CommitsNothing};
ghost use Rattle.store_sql.specs.Tables.{no_schema, meta_and_issuers, half_schema};
ghost use Rattle.store_sql.specs.Bindings.{version_insertion};
ghost use Rattle.store_sql.specs.Inside.{inside, IsInTransaction, KeepsReference, RunsIn};
ghost use Rattle.store_rows.specs.Contents.{version_number};
ghost use Rattle.store_rows.specs.Making.{BuildsIn, BuildsForCauseIn, MakesIn};

use sqlite::{Alter, Error, Transaction};
use statements_facts::Profile;
use store_sql::{
    StoreFault, create_issuers, create_meta, create_ocsp, create_scoped_crls,
    create_scoped_entries, insert_version,
};

fn make_first<S: Alter>(tx: &mut Transaction<'_, S>) -> Result<(), StoreFault>
    requires inside { IsInTransaction S.Store tx.old }
    ensures same_reference { KeepsReference tx.old tx.new }
    ensures builds { BuildsIn S.Store tx.old tx.new no_schema meta_and_issuers result }
    ensures caused { BuildsForCauseIn S.Store tx.old tx.new no_schema result }
    ensures survives { CommitsNothing (inside S.Store tx.old) (inside S.Store tx.new) }
{
    create_meta(tx)?;
    create_issuers(tx)?;
    Ok(())
}

fn make_next<S: Alter>(tx: &mut Transaction<'_, S>) -> Result<(), StoreFault>
    requires inside { IsInTransaction S.Store tx.old }
    ensures same_reference { KeepsReference tx.old tx.new }
    ensures builds { BuildsIn S.Store tx.old tx.new meta_and_issuers (half_schema Made) result }
    ensures caused { BuildsForCauseIn S.Store tx.old tx.new meta_and_issuers result }
    ensures survives { CommitsNothing (inside S.Store tx.old) (inside S.Store tx.new) }
{
    create_ocsp(tx)?;
    create_scoped_crls(tx)?;
    Ok(())
}

/// Inserts the row that says the version of the tables of this profile.
pub fn insert_version_of<S: Alter>(
    tx: &mut Transaction<'_, S>,
    profile: Profile,
) -> Result<usize, Error>
    ensures same_reference { KeepsReference tx.old tx.new }
    ensures runs { RunsIn S.Store tx.old tx.new
        (version_insertion (pos (version_number profile))) result }
    ensures survives { CommitsNothing (inside S.Store tx.old) (inside S.Store tx.new) }
{
    match profile {
        Profile::Stated => insert_version(tx, 2),
        Profile::Wide => insert_version(tx, 3),
    }
}

fn make_last<S: Alter>(tx: &mut Transaction<'_, S>, profile: Profile) -> Result<(), StoreFault>
    requires inside { IsInTransaction S.Store tx.old }
    ensures same_reference { KeepsReference tx.old tx.new }
    ensures makes { MakesIn S.Store tx.old tx.new (half_schema Made) profile result }
    ensures caused { BuildsForCauseIn S.Store tx.old tx.new (half_schema Made) result }
    ensures survives { CommitsNothing (inside S.Store tx.old) (inside S.Store tx.new) }
{
    create_scoped_entries(tx)?;
    insert_version_of(tx, profile)?;
    Ok(())
}

/// Makes the tables of a new store of this profile in an empty database.
pub fn make_tables<S: Alter>(
    tx: &mut Transaction<'_, S>,
    profile: Profile,
) -> Result<(), StoreFault>
    requires inside { IsInTransaction S.Store tx.old }
    ensures same_reference { KeepsReference tx.old tx.new }
    ensures makes { MakesIn S.Store tx.old tx.new no_schema profile result }
    ensures caused { BuildsForCauseIn S.Store tx.old tx.new no_schema result }
    ensures survives { CommitsNothing (inside S.Store tx.old) (inside S.Store tx.new) }
{
    make_first(tx)?;
    make_next(tx)?;
    make_last(tx, profile)
}
