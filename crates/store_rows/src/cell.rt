//! Cells of the rows that a query shows.

ghost use Rattle.std.specs.Prelude.{◌≡◌, ◌≢◌, ◌<◌, pos, IfOk, Err};
ghost use Rattle.sqlite.specs.declared.types.Value.TheVariants.{Int, Blob};
ghost use Rattle.store_rows.specs.Contents.{HasCell};
ghost use Rattle.store_rows.specs.Reading.{RefusesCell, RefusesNatural};

use sqlite::{Error, ErrorCode, Row};
use store_sql::StoreFault;

/// Memory ran out, or a cell has another form than the store writes.
fn cell_fault(error: Error) -> StoreFault
    ensures schema { result ≡ StoreFault.Schema
        → error ≢ Error.SqliteFailure ErrorCode.OutOfMemory }
    ensures cell { result ≢ StoreFault.Store }
{
    match error {
        Error::SqliteFailure(ErrorCode::OutOfMemory) => StoreFault::Memory,
        _ => StoreFault::Schema,
    }
}

/// The integer in a cell.
pub fn integer(row: &Row, at: usize) -> Result<i64, StoreFault>
    ensures ok { IfOk result (λ number. HasCell row.now at (Int number)) }
    ensures schema { RefusesCell Int row.now at result }
    ensures cell { result ≢ Err StoreFault.Store }
{
    row.get(at).map_err(cell_fault)
}

/// The octets in a cell.
pub fn octets(row: &Row, at: usize) -> Result<Vec<u8>, StoreFault>
    ensures ok { IfOk result (λ octets. HasCell row.now at (Blob octets.items)) }
    ensures schema { RefusesCell Blob row.now at result }
    ensures cell { result ≢ Err StoreFault.Store }
{
    row.get(at).map_err(cell_fault)
}

/// The number in a cell that is not negative and below the bound.
pub fn natural(row: &Row, at: usize, bound: u32) -> Result<u32, StoreFault>
    ensures ok { IfOk result (λ number. HasCell row.now at (Int (pos number)) × (number < bound)) }
    ensures schema { RefusesNatural bound row.now at result }
    ensures cell { result ≢ Err StoreFault.Store }
{
    let number = integer(row, at)?;
    if 0 <= number && number < i64::from(bound) {
        Ok(number as u32)
    } else {
        Err(StoreFault::Schema)
    }
}
