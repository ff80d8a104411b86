//! What responses say of single certificates.

ghost use Rattle.std.specs.Prelude.{◌≡◌, ◌≢◌, pos, Err, IfOk, IfSome, IfNone};
ghost use Rattle.statements_facts.specs.Single.{seen_single};
ghost use Rattle.store_sql.specs.Statements.{CommitsNothing};
ghost use Rattle.store_rows.specs.Contents.{said_cells, status_number, reason_number};
ghost use Rattle.store_rows.specs.Holding.{IsSaid, with_said};
ghost use Rattle.statements_facts.specs.Answer.{seen_ocsp};
ghost use Rattle.store_sql.specs.Inside.{inside, IsInTransaction, KeepsReference};
ghost use Rattle.store_rows.specs.Found.{SaysOf};
ghost use Rattle.store_rows.specs.Reading.{AreShown, RefusesRow, RefusesRows, HasNumbers, AreOfNoStatus, HasStatusCells, RefusesStatus, IsSaidIn};
ghost use Rattle.store_rows.specs.Room.{CanPutSingle};
ghost use Rattle.store_rows.specs.Steps.{FindsIn, CausedIn, CausedIfRoomIn, ChangesIn};
ghost use Rattle.store_sql.specs.Bindings.{said_params};

use crate::cell::{integer, natural};
use sqlite::{Alter, Row, Transaction};
use statements_facts::{OcspAnswer, Single, Status};
use store_sql::{SaidCells, SingleKey, StoreFault, delete_single, insert_single, single_rows};

/// The number of a status in the tables.
fn status_number(status: Status) -> u8
    ensures { result ≡ status_number status }
{
    match status {
        Status::Good => 0,
        Status::Revoked(_) => 1,
        Status::Unknown => 2,
    }
}

/// The number of the reason, which is 0 if the certificate is not revoked.
fn reason_number(status: Status) -> u8
    ensures { result ≡ reason_number status }
{
    match status {
        Status::Revoked(reason) => reason,
        _ => 0,
    }
}

fn status_of(status: u32, reason: u8) -> Option<Status>
    ensures some { IfSome result (HasNumbers status reason) }
    ensures none { IfNone result (AreOfNoStatus status reason) }
{
    match (status, reason) {
        (0, 0) => Some(Status::Good),
        (1, reason) => Some(Status::Revoked(reason)),
        (2, 0) => Some(Status::Unknown),
        _ => None,
    }
}

fn read_status(row: &Row) -> Result<Status, StoreFault>
    ensures ok { IfOk result (HasStatusCells row.now) }
    ensures schema { RefusesStatus row.now result }
    ensures cell { result ≢ Err StoreFault.Store }
{
    let status = natural(row, 4, 3)?;
    let reason = natural(row, 5, 256)?;
    status_of(status, reason as u8).ok_or(StoreFault::Schema)
}

fn read_said(row: &Row) -> Result<OcspAnswer, StoreFault>
    ensures ok { IfOk result (IsSaidIn row.now) }
    ensures schema { RefusesRow said_cells IsSaid row.now result }
    ensures cell { result ≢ Err StoreFault.Store }
{
    let this_update = integer(row, 0)?;
    let produced_at = integer(row, 1)?;
    let from = integer(row, 2)?;
    let until = integer(row, 3)?;
    let status = read_status(row)?;
    Ok(OcspAnswer {
        this_update,
        produced_at,
        from,
        until,
        status,
    })
}

fn read_all(rows: &[Row]) -> Result<Option<OcspAnswer>, StoreFault>
    ensures ok { IfOk result (AreShown seen_ocsp said_cells IsSaid rows.now) }
    ensures schema { RefusesRows said_cells IsSaid rows.now result }
    ensures cell { result ≢ Err StoreFault.Store }
{
    match rows {
        [] => Ok(None),
        [row] => Ok(Some(read_said(row)?)),
        _ => Err(StoreFault::Schema),
    }
}

fn key_of<'x>(issuer: u32, name_hash: &'x [u8], serial: &'x [u8]) -> SingleKey<'x>
    ensures issuer { result.issuer ≡ pos issuer }
    ensures name_hash { result.name_hash.now ≡ name_hash.now }
    ensures serial { result.serial.now ≡ serial.now }
{
    SingleKey {
        issuer: i64::from(issuer),
        name_hash,
        serial,
    }
}

/// What is held of a certificate, if something is.
pub fn find_single<'x, S: Alter>(
    tx: &mut Transaction<'_, S>,
    issuer: u32,
    name_hash: &'x [u8],
    serial: &'x [u8],
) -> Result<Option<OcspAnswer>, StoreFault>
    requires inside { IsInTransaction S.Store tx.old }
    ensures same_reference { KeepsReference tx.old tx.new }
    ensures finds { FindsIn S.Store tx.old tx.new (SaysOf issuer name_hash.now serial.now) result }
    ensures caused { CausedIn S.Store tx.old tx.new result }
    ensures survives { CommitsNothing (inside S.Store tx.old) (inside S.Store tx.new) }
{
    let key = key_of(issuer, name_hash, serial);
    let rows = single_rows(tx, &key)?;
    read_all(rows.as_slice())
}

fn columns_of(single: &Single<'_>) -> SaidCells
    ensures { said_params result ≡ said_cells (seen_single single.now).fact }
{
    SaidCells {
        this_update: single.this_update,
        produced_at: single.produced_at,
        since: single.from,
        until: single.until,
        status: i64::from(status_number(single.status)),
        reason: i64::from(reason_number(single.status)),
    }
}

/// Puts what a response says of a certificate in the place of what is held of it.
pub fn replace_single<S: Alter>(
    tx: &mut Transaction<'_, S>,
    issuer: u32,
    single: &Single<'_>,
) -> Result<(), StoreFault>
    requires inside { IsInTransaction S.Store tx.old }
    ensures same_reference { KeepsReference tx.old tx.new }
    ensures changes { ChangesIn S.Store tx.old tx.new (with_said issuer single.now) result }
    ensures caused { CausedIfRoomIn S.Store tx.old tx.new
        (CanPutSingle (seen_single single.now)) result }
    ensures survives { CommitsNothing (inside S.Store tx.old) (inside S.Store tx.new) }
{
    let key = key_of(issuer, &single.name_hash, single.serial);
    delete_single(tx, &key)?;
    let said = columns_of(single);
    insert_single(tx, &key, &said)?;
    Ok(())
}
