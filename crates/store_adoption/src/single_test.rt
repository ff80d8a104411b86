//! What responses say of single certificates.

ghost use Rattle.std.specs.Prelude.{◌≡◌, OnOk, Err, ◌≢◌};
ghost use Rattle.store_adoption.specs.Cells.{IsSingleCells, HasStatus, RefusesStatusCells};

use crate::cell::below;
use crate::row_test::RowTest;
use sqlite::Row;
use store_sql::StoreFault;

/// Each stands under an id below that of the next issuer, and has a status.
#[derive(Drop)]
pub(crate) struct SingleTest {
    pub(crate) next: u32,
}

/// A reason stands beside a status that is not revoked as 0.
fn has_status(row: &Row) -> Result<(), StoreFault>
    ensures ok { OnOk result (HasStatus row.now) }
    ensures schema { RefusesStatusCells row.now result }
    ensures cell { result ≢ Err StoreFault.Store }
{
    let status = below(row, 1, 3)?;
    let reason = below(row, 2, 256)?;
    if status == 1 || reason == 0 {
        Ok(())
    } else {
        Err(StoreFault::Schema)
    }
}

fn is_single(row: &Row, next: u32) -> Result<(), StoreFault>
    ensures ok { OnOk result (IsSingleCells next row.now) }
    ensures schema { result ≡ Err StoreFault.Schema → IsSingleCells next row.now → ⊥ }
    ensures cell { result ≢ Err StoreFault.Store }
{
    below(row, 0, next)?;
    has_status(row)
}

impl RowTest for SingleTest {
    ghost use Rattle.std.specs.List.{AllByRecursion};
    ghost use Rattle.store_adoption.specs.Cells.{IsSingleCells};

    ghost passed = { λ test rows. AllByRecursion (IsSingleCells test.next) rows };

    ghost are_formed = { λ test rows. AllByRecursion (IsSingleCells test.next) rows };

    fn take(&mut self, row: &Row) -> Result<(), StoreFault> {
        is_single(row, self.next)
    }
}
