//! Entries of revocation lists, at their places.

ghost use Rattle.std.specs.Prelude.{◌≡◌, ◌<◌, ◌+◌, ◌≢◌, pos, Err, IfOk};
ghost use Rattle.store_sql.specs.Statements.{CommitsNothing};
ghost use Rattle.store_rows.specs.Contents.{listed_cells};
ghost use Rattle.store_rows.specs.Holding.{HasByte};
ghost use Rattle.store_sql.specs.Inside.{inside, IsInTransaction, KeepsReference, KeepsCommitOnError, SelectsIn};
ghost use Rattle.store_rows.specs.Found.{IsBesideAt, IsReasonIn};
ghost use Rattle.store_rows.specs.Reading.{RefusesRow, RefusesRows, IsBesideRow, IsBesideRows};
ghost use Rattle.store_rows.specs.Bound.{first_place};
ghost use Rattle.store_rows.specs.Steps.{FindsIn, CausedIn};
ghost use Rattle.store_sql.specs.Bindings.{entry_query};
ghost use Rattle.store_sql.specs.Cause.{RefusesForCause};

use crate::beside::{SerialAtPlace, compare};
use crate::cell::{natural, octets};
use crate::crl::scope_number;
use sqlite::{Alter, Error, Row, Transaction};
use statements_facts::Scope;
use store_sql::{StoreFault, entry_rows};

/// How many places the entries of a list have.
pub(crate) const ROOM: u64 = 4_294_967_296;

/// A list: the id of its issuer, and its scope.
#[derive(Clone, Copy)]
pub struct ListKey {
    pub issuer: u32,
    pub scope: Scope,
}

/// Where the entries of a list begin.
pub(crate) fn base_of(list: &ListKey) -> u64
    requires { list.now.issuer < 536870911 }
    ensures place { result ≡ first_place list.now }
    ensures room { result + 4294967296 < 9223372036854775808 }
{
    (u64::from(list.issuer) * 4 + u64::from(scope_number(list.scope))) * ROOM
}

pub(crate) fn signed(place: u64) -> i64
    requires { place < 9223372036854775808 }
    ensures { result ≡ pos place }
{
    place as i64
}

fn read_entry(row: &Row, serial: &[u8]) -> Result<SerialAtPlace, StoreFault>
    ensures ok { IfOk result (IsBesideRow row.now serial.now) }
    ensures schema { RefusesRow listed_cells HasByte row.now result }
    ensures cell { result ≢ Err StoreFault.Store }
{
    let reason = natural(row, 1, 256)?;
    let there = octets(row, 0)?;
    Ok(compare(there.as_slice(), reason as u8, serial))
}

fn read_entries(rows: &[Row], serial: &[u8]) -> Result<SerialAtPlace, StoreFault>
    ensures ok { IfOk result (IsBesideRows rows.now serial.now) }
    ensures schema { RefusesRows listed_cells HasByte rows.now result }
    ensures cell { result ≢ Err StoreFault.Store }
{
    match rows {
        [] => Ok(SerialAtPlace::Nothing),
        [row] => read_entry(row, serial),
        _ => Err(StoreFault::Schema),
    }
}

fn rows_at<S: Alter>(tx: &mut Transaction<'_, S>, place: u64) -> Result<Vec<Row>, Error>
    requires place { place < 9223372036854775808 }
    ensures same_reference { KeepsReference tx.old tx.new }
    ensures shows { SelectsIn S.Store tx.old tx.new (entry_query (pos place)) result }
    ensures kept { KeepsCommitOnError S.Store tx.old tx.new result }
    ensures cause { RefusesForCause S.Store tx.old tx.new result }
    ensures survives { CommitsNothing (inside S.Store tx.old) (inside S.Store tx.new) }
{
    entry_rows(tx, signed(place))
}

/// What stands at this index of a list, beside a serial number.
pub(crate) fn stands_at<S: Alter>(
    tx: &mut Transaction<'_, S>,
    list: &ListKey,
    index: u64,
    serial: &[u8],
) -> Result<SerialAtPlace, StoreFault>
    requires issuer { list.now.issuer < 536870911 }
    requires index { index < 4294967296 }
    requires inside { IsInTransaction S.Store tx.old }
    ensures same_reference { KeepsReference tx.old tx.new }
    ensures finds { FindsIn S.Store tx.old tx.new (IsBesideAt list.now index serial.now) result }
    ensures caused { CausedIn S.Store tx.old tx.new result }
    ensures survives { CommitsNothing (inside S.Store tx.old) (inside S.Store tx.new) }
{
    let place = base_of(list) + index;
    let rows = rows_at(tx, place)?;
    read_entries(rows.as_slice(), serial)
}

/// The reason of a serial number, if the list has it: by halving, with at most 33 look-ups.
pub fn find_entry<S: Alter>(
    tx: &mut Transaction<'_, S>,
    list: &ListKey,
    serial: &[u8],
) -> Result<Option<u8>, StoreFault>
    requires issuer { list.now.issuer < 536870911 }
    requires inside { IsInTransaction S.Store tx.old }
    ensures same_reference { KeepsReference tx.old tx.new }
    ensures finds { FindsIn S.Store tx.old tx.new (IsReasonIn list.now serial.now) result }
    ensures caused { CausedIn S.Store tx.old tx.new result }
    ensures survives { CommitsNothing (inside S.Store tx.old) (inside S.Store tx.new) }
{
    let mut low: u64 = 0;
    let mut high: u64 = ROOM;
    while low < high {
        let middle = low + (high - low) / 2;
        let beside = stands_at(tx, list, middle, serial)?;
        match beside {
            SerialAtPlace::Nothing => high = middle,
            SerialAtPlace::Below => low = middle + 1,
            SerialAtPlace::Same(reason) => return Ok(Some(reason)),
            SerialAtPlace::Above => high = middle,
        }
    }
    Ok(None)
}
