//! Issuers, by the keys of their names and their public keys.

ghost use Rattle.store_sql.specs.Statements.{CommitsNothing};
ghost use Rattle.store_sql.specs.Inside.{inside, KeepsReference, KeepsCommitOnError, SelectsIn, RunsIn};
ghost use Rattle.store_sql.specs.Cause.{RefusesForCause};
ghost use Rattle.store_sql.specs.Bindings.{issuer_query, issuer_insertion};

use sqlite::types::ValueRef;
use sqlite::{Alter, Error, Row, Transaction};

/// The ids of the issuer with this key of its name and this subjectPublicKeyInfo.
pub fn issuer_rows<'x, S: Alter>(
    tx: &mut Transaction<'_, S>,
    name: &'x [u8],
    key_info: &'x [u8],
) -> Result<Vec<Row>, Error>
    ensures same_reference { KeepsReference tx.old tx.new }
    ensures shows { SelectsIn S.Store tx.old tx.new (issuer_query name.now key_info.now) result }
    ensures cause { RefusesForCause S.Store tx.old tx.new result }
    ensures kept { KeepsCommitOnError S.Store tx.old tx.new result }
    ensures survives { CommitsNothing (inside S.Store tx.old) (inside S.Store tx.new) }
{
    tx.query_all(
        "SELECT id FROM issuers WHERE name = ?1 AND spki = ?2",
        &[ValueRef::Blob(name), ValueRef::Blob(key_info)],
    )
}

/// Inserts an issuer, under an id that SQLite chooses.
pub fn insert_issuer<'x, S: Alter>(
    tx: &mut Transaction<'_, S>,
    name: &'x [u8],
    key_info: &'x [u8],
) -> Result<usize, Error>
    ensures same_reference { KeepsReference tx.old tx.new }
    ensures runs { RunsIn S.Store tx.old tx.new (issuer_insertion name.now key_info.now) result }
    ensures survives { CommitsNothing (inside S.Store tx.old) (inside S.Store tx.new) }
{
    tx.execute(
        "INSERT INTO issuers (name, spki) VALUES (?1, ?2)",
        &[ValueRef::Blob(name), ValueRef::Blob(key_info)],
    )
}
