//! The version of the tables, in the row with id 1.

ghost use Rattle.store_sql.specs.Statements.{CommitsNothing};
ghost use Rattle.store_sql.specs.Inside.{inside, KeepsReference, KeepsCommitOnError, SelectsIn, RunsIn};
ghost use Rattle.store_sql.specs.Cause.{RefusesForCause};
ghost use Rattle.store_sql.specs.Bindings.{versions_query, version_deletion, version_insertion};

use sqlite::types::ValueRef;
use sqlite::{Alter, Error, Row, Transaction};

/// The rows of the version: id and version.
pub fn version_rows<S: Alter>(tx: &mut Transaction<'_, S>) -> Result<Vec<Row>, Error>
    ensures same_reference { KeepsReference tx.old tx.new }
    ensures shows { SelectsIn S.Store tx.old tx.new versions_query result }
    ensures cause { RefusesForCause S.Store tx.old tx.new result }
    ensures kept { KeepsCommitOnError S.Store tx.old tx.new result }
    ensures survives { CommitsNothing (inside S.Store tx.old) (inside S.Store tx.new) }
{
    tx.query_all("SELECT id, version FROM meta", &[])
}

/// Deletes the row.
pub fn delete_version<S: Alter>(tx: &mut Transaction<'_, S>) -> Result<usize, Error>
    ensures same_reference { KeepsReference tx.old tx.new }
    ensures runs { RunsIn S.Store tx.old tx.new version_deletion result }
    ensures survives { CommitsNothing (inside S.Store tx.old) (inside S.Store tx.new) }
{
    tx.execute("DELETE FROM meta WHERE id = ?1", &[ValueRef::Int(1)])
}

/// Inserts the row.
pub fn insert_version<S: Alter>(tx: &mut Transaction<'_, S>, version: i64) -> Result<usize, Error>
    ensures same_reference { KeepsReference tx.old tx.new }
    ensures runs { RunsIn S.Store tx.old tx.new (version_insertion version) result }
    ensures survives { CommitsNothing (inside S.Store tx.old) (inside S.Store tx.new) }
{
    tx.execute(
        "INSERT INTO meta (id, version) VALUES (?1, ?2)",
        &[ValueRef::Int(1), ValueRef::Int(version)],
    )
}
