//! Entries of revocation lists, by their places.

ghost use Rattle.std.specs.Prelude.{◌≡◌, ◌++◌, OnOk};
ghost use Rattle.sqlite.specs.Values.{bound};
ghost use Rattle.store_sql.specs.Statements.{CommitsNothing};
ghost use Rattle.store_sql.specs.Inside.{inside, KeepsReference, KeepsCommitOnError, SelectsIn, RunsIn};
ghost use Rattle.store_sql.specs.Cause.{RefusesForCause};
ghost use Rattle.store_sql.specs.Bindings.{entry_query, entries_query, entries_deletion, entry_insertion, entry_cells_row, entries_insertion};

use sqlite::types::ValueRef;
use sqlite::{Alter, Error, Row, Transaction};
use std::alloc::AllocError;

/// How many entries `insert_entries` inserts.
pub const GROUP: usize = 8;

/// The places from the first on, before the end.
#[derive(Clone, Copy)]
pub struct Places {
    pub first: i64,
    pub end: i64,
}

/// An entry, as the columns have it.
#[derive(Clone, Copy)]
pub struct EntryCells<'a> {
    pub place: i64,
    /// The id of the issuer and the number of the scope of its list.
    pub issuer: i64,
    pub scope: i64,
    /// The contents octets of the serial number.
    pub serial: &'a [u8],
    /// The number of the reason.
    pub reason: i64,
}

/// What stands at a place: serial number and reason.
pub fn entry_rows<S: Alter>(tx: &mut Transaction<'_, S>, place: i64) -> Result<Vec<Row>, Error>
    ensures same_reference { KeepsReference tx.old tx.new }
    ensures shows { SelectsIn S.Store tx.old tx.new (entry_query place) result }
    ensures cause { RefusesForCause S.Store tx.old tx.new result }
    ensures kept { KeepsCommitOnError S.Store tx.old tx.new result }
    ensures survives { CommitsNothing (inside S.Store tx.old) (inside S.Store tx.new) }
{
    tx.query_all(
        "SELECT serial, reason FROM scoped_entries WHERE id = ?1",
        &[ValueRef::Int(place)],
    )
}

/// What stands at these places: place, serial number and reason.
pub fn entries_between<S: Alter>(
    tx: &mut Transaction<'_, S>,
    places: &Places,
) -> Result<Vec<Row>, Error>
    ensures same_reference { KeepsReference tx.old tx.new }
    ensures shows { SelectsIn S.Store tx.old tx.new (entries_query places.now) result }
    ensures cause { RefusesForCause S.Store tx.old tx.new result }
    ensures kept { KeepsCommitOnError S.Store tx.old tx.new result }
    ensures survives { CommitsNothing (inside S.Store tx.old) (inside S.Store tx.new) }
{
    tx.query_all(
        "SELECT id, serial, reason FROM scoped_entries WHERE id >= ?1 AND id < ?2",
        &[ValueRef::Int(places.first), ValueRef::Int(places.end)],
    )
}

/// Deletes what stands at these places.
pub fn delete_entries<S: Alter>(
    tx: &mut Transaction<'_, S>,
    places: &Places,
) -> Result<usize, Error>
    ensures same_reference { KeepsReference tx.old tx.new }
    ensures runs { RunsIn S.Store tx.old tx.new (entries_deletion places.now) result }
    ensures survives { CommitsNothing (inside S.Store tx.old) (inside S.Store tx.new) }
{
    tx.execute(
        "DELETE FROM scoped_entries WHERE id >= ?1 AND id < ?2",
        &[ValueRef::Int(places.first), ValueRef::Int(places.end)],
    )
}

/// Inserts an entry.
pub fn insert_entry<S: Alter>(
    tx: &mut Transaction<'_, S>,
    entry: &EntryCells<'_>,
) -> Result<usize, Error>
    ensures same_reference { KeepsReference tx.old tx.new }
    ensures runs { RunsIn S.Store tx.old tx.new (entry_insertion entry.now) result }
    ensures survives { CommitsNothing (inside S.Store tx.old) (inside S.Store tx.new) }
{
    tx.execute(
        "INSERT INTO scoped_entries (id, issuer, scope, serial, reason) VALUES (?1, ?2, ?3, ?4, ?5)",
        &[
            ValueRef::Int(entry.place),
            ValueRef::Int(entry.issuer),
            ValueRef::Int(entry.scope),
            ValueRef::Blob(entry.serial),
            ValueRef::Int(entry.reason),
        ],
    )
}

/// Adds an entry to a group, column by column.
pub fn push_columns<'a>(
    columns: &mut Vec<ValueRef<'a>>,
    entry: &EntryCells<'a>,
) -> Result<(), AllocError>
    ensures { OnOk result
        (bound columns.new.items ≡ bound columns.old.items ++ entry_cells_row entry.now) }
{
    columns.extend_from_slice(&[
        ValueRef::Int(entry.place),
        ValueRef::Int(entry.issuer),
        ValueRef::Int(entry.scope),
        ValueRef::Blob(entry.serial),
        ValueRef::Int(entry.reason),
    ])
}

/// Inserts a group of entries by one statement, which costs less than one for each.
pub fn insert_entries<S: Alter>(
    tx: &mut Transaction<'_, S>,
    columns: &[ValueRef<'_>],
) -> Result<usize, Error>
    ensures same_reference { KeepsReference tx.old tx.new }
    ensures runs { RunsIn S.Store tx.old tx.new (entries_insertion (bound columns.now)) result }
    ensures survives { CommitsNothing (inside S.Store tx.old) (inside S.Store tx.new) }
{
    tx.execute(
        "INSERT INTO scoped_entries (id, issuer, scope, serial, reason) VALUES \
         (?1, ?2, ?3, ?4, ?5), \
         (?6, ?7, ?8, ?9, ?10), \
         (?11, ?12, ?13, ?14, ?15), \
         (?16, ?17, ?18, ?19, ?20), \
         (?21, ?22, ?23, ?24, ?25), \
         (?26, ?27, ?28, ?29, ?30), \
         (?31, ?32, ?33, ?34, ?35), \
         (?36, ?37, ?38, ?39, ?40)",
        columns,
    )
}
