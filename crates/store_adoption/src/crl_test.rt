//! The heads of revocation lists.

ghost use Rattle.std.specs.Prelude.{◌≡◌, OnOk, Err, ◌≢◌};
ghost use Rattle.store_adoption.specs.Cells.{IsCrlCells};

use crate::cell::{below, has_number};
use crate::row_test::RowTest;
use sqlite::Row;
use store_sql::StoreFault;

/// Each list stands under an id below that of the next issuer, a scope and a number.
#[derive(Drop)]
pub(crate) struct CrlTest {
    pub(crate) next: u32,
}

fn is_crl(row: &Row, next: u32) -> Result<(), StoreFault>
    ensures ok { OnOk result (IsCrlCells next row.now) }
    ensures schema { result ≡ Err StoreFault.Schema → IsCrlCells next row.now → ⊥ }
    ensures cell { result ≢ Err StoreFault.Store }
{
    below(row, 0, next)?;
    below(row, 1, 3)?;
    has_number(row, 2)
}

impl RowTest for CrlTest {
    ghost use Rattle.std.specs.List.{AllByRecursion};
    ghost use Rattle.store_adoption.specs.Cells.{IsCrlCells};

    ghost passed = { λ test rows. AllByRecursion (IsCrlCells test.next) rows };

    ghost are_formed = { λ test rows. AllByRecursion (IsCrlCells test.next) rows };

    fn take(&mut self, row: &Row) -> Result<(), StoreFault> {
        is_crl(row, self.next)
    }
}
