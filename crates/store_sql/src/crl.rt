//! Revocation lists, by issuer and scope.

ghost use Rattle.store_sql.specs.Statements.{CommitsNothing};
ghost use Rattle.store_sql.specs.Inside.{inside, KeepsReference, KeepsCommitOnError, SelectsIn, RunsIn};
ghost use Rattle.store_sql.specs.Cause.{RefusesForCause};
ghost use Rattle.store_sql.specs.Bindings.{crl_query, crl_deletion, crl_insertion};

use sqlite::types::ValueRef;
use sqlite::{Alter, Error, Row, Transaction};

/// The id of an issuer and the number of a scope.
#[derive(Clone, Copy)]
pub struct CrlKey {
    pub issuer: i64,
    pub scope: i64,
}

/// A list, as the columns have it.
#[derive(Clone, Copy)]
pub struct CrlCells<'a> {
    /// Twenty octets, the most significant first.
    pub number: &'a [u8],
    /// From when it counts.
    pub since: i64,
    /// Until when it counts.
    pub until: i64,
}

/// The lists of this issuer and scope: number, from when and until when they count.
pub fn crl_rows<S: Alter>(tx: &mut Transaction<'_, S>, key: &CrlKey) -> Result<Vec<Row>, Error>
    ensures same_reference { KeepsReference tx.old tx.new }
    ensures shows { SelectsIn S.Store tx.old tx.new (crl_query key.now) result }
    ensures cause { RefusesForCause S.Store tx.old tx.new result }
    ensures kept { KeepsCommitOnError S.Store tx.old tx.new result }
    ensures survives { CommitsNothing (inside S.Store tx.old) (inside S.Store tx.new) }
{
    tx.query_all(
        "SELECT number, since, until FROM scoped_crls WHERE issuer = ?1 AND scope = ?2",
        &[ValueRef::Int(key.issuer), ValueRef::Int(key.scope)],
    )
}

/// Deletes the lists of this issuer and scope.
pub fn delete_crl<S: Alter>(tx: &mut Transaction<'_, S>, key: &CrlKey) -> Result<usize, Error>
    ensures same_reference { KeepsReference tx.old tx.new }
    ensures runs { RunsIn S.Store tx.old tx.new (crl_deletion key.now) result }
    ensures survives { CommitsNothing (inside S.Store tx.old) (inside S.Store tx.new) }
{
    tx.execute(
        "DELETE FROM scoped_crls WHERE issuer = ?1 AND scope = ?2",
        &[ValueRef::Int(key.issuer), ValueRef::Int(key.scope)],
    )
}

/// Inserts a list.
pub fn insert_crl<S: Alter>(
    tx: &mut Transaction<'_, S>,
    key: &CrlKey,
    cells: &CrlCells<'_>,
) -> Result<usize, Error>
    ensures same_reference { KeepsReference tx.old tx.new }
    ensures runs { RunsIn S.Store tx.old tx.new (crl_insertion key.now cells.now) result }
    ensures survives { CommitsNothing (inside S.Store tx.old) (inside S.Store tx.new) }
{
    tx.execute(
        "INSERT INTO scoped_crls (issuer, scope, number, since, until) VALUES (?1, ?2, ?3, ?4, ?5)",
        &[
            ValueRef::Int(key.issuer),
            ValueRef::Int(key.scope),
            ValueRef::Blob(cells.number),
            ValueRef::Int(cells.since),
            ValueRef::Int(cells.until),
        ],
    )
}
