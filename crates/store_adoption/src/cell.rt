//! Cells of the rows that a text shows. `below`, `blob` and `signed` read what `natural`, `octets` and `integer` of `store_rows` read; their
//! clauses also say that a cell is refused only if it holds no such value.

ghost use Rattle.std.specs.Prelude.{IfOk, OnOk, ◌≢◌, Err};
ghost use Rattle.sqlite.specs.Order.{column};
ghost use Rattle.store_adoption.specs.Cells.{HasInteger, HasNatural, HasOctets, HasNumber, SchemaRefutes, ReadsNatural, ReadsOctets, ReadsInteger, ReadsNumber};

use asn::Number20;
use sqlite::{Error, ErrorCode, Row};
use store_rows::{integer, natural, number_of, octets};
use store_sql::StoreFault;

/// The number in a cell that is not negative and below the bound.
#[tactic(auto, using(crate::proofs::Cells::natural_read, crate::proofs::Cells::natural_refused))]
pub fn below(row: &Row, at: usize, bound: u32) -> Result<u32, StoreFault>
    ensures ok { IfOk result (ReadsNatural bound row.now at) }
    ensures schema { SchemaRefutes result (HasNatural bound (column row.now at)) }
    ensures cell { result ≢ Err StoreFault.Store }
{
    natural(row, at, bound)
}

/// The number in a cell that is not negative.
pub(crate) fn place(row: &Row, at: usize) -> Result<u64, StoreFault>
    ensures ok { IfOk result (ReadsNatural 18446744073709551616 row.now at) }
    ensures schema { SchemaRefutes result (HasNatural 18446744073709551616 (column row.now at)) }
    ensures cell { result ≢ Err StoreFault.Store }
{
    match row.get(at) {
        Ok(number) => Ok(number),
        Err(Error::SqliteFailure(ErrorCode::OutOfMemory)) => Err(StoreFault::Memory),
        Err(_) => Err(StoreFault::Schema),
    }
}

/// The octets in a cell.
#[tactic(auto, using(crate::proofs::Cells::octets_read, crate::proofs::Cells::octets_refused))]
pub fn blob(row: &Row, at: usize) -> Result<Vec<u8>, StoreFault>
    ensures ok { IfOk result (ReadsOctets row.now at) }
    ensures schema { SchemaRefutes result (HasOctets (column row.now at)) }
    ensures cell { result ≢ Err StoreFault.Store }
{
    octets(row, at)
}

/// The integer in a cell.
#[tactic(auto, using(crate::proofs::Cells::integer_read, crate::proofs::Cells::integer_refused))]
pub fn signed(row: &Row, at: usize) -> Result<i64, StoreFault>
    ensures ok { IfOk result (ReadsInteger row.now at) }
    ensures schema { SchemaRefutes result (HasInteger (column row.now at)) }
    ensures cell { result ≢ Err StoreFault.Store }
{
    integer(row, at)
}

/// The number that a cell holds in twenty octets.
pub fn number(row: &Row, at: usize) -> Result<Number20, StoreFault>
    ensures ok { IfOk result (ReadsNumber row.now at) }
    ensures schema { SchemaRefutes result (HasNumber (column row.now at)) }
    ensures cell { result ≢ Err StoreFault.Store }
{
    let octets = octets(row, at)?;
    number_of(octets.as_slice()).ok_or(StoreFault::Schema)
}

/// The cell holds a number in twenty octets.
pub(crate) fn has_number(row: &Row, at: usize) -> Result<(), StoreFault>
    ensures ok { OnOk result (HasNumber (column row.now at)) }
    ensures schema { SchemaRefutes result (HasNumber (column row.now at)) }
    ensures cell { result ≢ Err StoreFault.Store }
{
    number(row, at)?;
    Ok(())
}
