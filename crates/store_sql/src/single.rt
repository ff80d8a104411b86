//! What responses say, by issuer and certificate.

ghost use Rattle.store_sql.specs.Statements.{CommitsNothing};
ghost use Rattle.store_sql.specs.Inside.{inside, KeepsReference, KeepsCommitOnError, SelectsIn, RunsIn};
ghost use Rattle.store_sql.specs.Cause.{RefusesForCause};
ghost use Rattle.store_sql.specs.Bindings.{single_query, single_deletion, single_insertion};

use sqlite::types::ValueRef;
use sqlite::{Alter, Error, Row, Transaction};

/// A certificate: the id of its issuer, the hash of the issuer's name, and the contents octets of its serial number.
#[derive(Clone, Copy)]
pub struct SingleKey<'a> {
    pub issuer: i64,
    pub name_hash: &'a [u8],
    pub serial: &'a [u8],
}

/// What a response says of a certificate, as the columns have it.
#[derive(Clone, Copy)]
pub struct SaidCells {
    pub this_update: i64,
    pub produced_at: i64,
    /// From when it counts.
    pub since: i64,
    /// Until when it counts.
    pub until: i64,
    pub status: i64,
    pub reason: i64,
}

/// What is said of a certificate: thisUpdate, producedAt, from when and until when it counts, status and reason.
pub fn single_rows<S: Alter>(
    tx: &mut Transaction<'_, S>,
    key: &SingleKey<'_>,
) -> Result<Vec<Row>, Error>
    ensures same_reference { KeepsReference tx.old tx.new }
    ensures shows { SelectsIn S.Store tx.old tx.new (single_query key.now) result }
    ensures cause { RefusesForCause S.Store tx.old tx.new result }
    ensures kept { KeepsCommitOnError S.Store tx.old tx.new result }
    ensures survives { CommitsNothing (inside S.Store tx.old) (inside S.Store tx.new) }
{
    tx.query_all(
        "SELECT this_update, produced_at, since, until, status, reason FROM ocsp WHERE issuer = ?1 AND name_hash = ?2 AND serial = ?3",
        &[
            ValueRef::Int(key.issuer),
            ValueRef::Blob(key.name_hash),
            ValueRef::Blob(key.serial),
        ],
    )
}

/// Deletes what is said of a certificate.
pub fn delete_single<S: Alter>(
    tx: &mut Transaction<'_, S>,
    key: &SingleKey<'_>,
) -> Result<usize, Error>
    ensures same_reference { KeepsReference tx.old tx.new }
    ensures runs { RunsIn S.Store tx.old tx.new (single_deletion key.now) result }
    ensures survives { CommitsNothing (inside S.Store tx.old) (inside S.Store tx.new) }
{
    tx.execute(
        "DELETE FROM ocsp WHERE issuer = ?1 AND name_hash = ?2 AND serial = ?3",
        &[
            ValueRef::Int(key.issuer),
            ValueRef::Blob(key.name_hash),
            ValueRef::Blob(key.serial),
        ],
    )
}

/// Inserts what is said of a certificate.
pub fn insert_single<S: Alter>(
    tx: &mut Transaction<'_, S>,
    key: &SingleKey<'_>,
    said: &SaidCells,
) -> Result<usize, Error>
    ensures same_reference { KeepsReference tx.old tx.new }
    ensures runs { RunsIn S.Store tx.old tx.new (single_insertion key.now said.now) result }
    ensures survives { CommitsNothing (inside S.Store tx.old) (inside S.Store tx.new) }
{
    tx.execute(
        "INSERT INTO ocsp (issuer, name_hash, serial, this_update, produced_at, since, until, status, reason) VALUES (?1, ?2, ?3, ?4, ?5, ?6, ?7, ?8, ?9)",
        &[
            ValueRef::Int(key.issuer),
            ValueRef::Blob(key.name_hash),
            ValueRef::Blob(key.serial),
            ValueRef::Int(said.this_update),
            ValueRef::Int(said.produced_at),
            ValueRef::Int(said.since),
            ValueRef::Int(said.until),
            ValueRef::Int(said.status),
            ValueRef::Int(said.reason),
        ],
    )
}
