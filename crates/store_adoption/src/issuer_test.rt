//! The ids of issuers.

use crate::cell::below;
use crate::row_test::RowTest;
use sqlite::Row;
use store_rows::ID_LIMIT;
use store_sql::StoreFault;

/// Each issuer has an id below the limit.
#[derive(Drop)]
pub(crate) struct IssuerTest {
    /// One more than the id of the last issuer, or 1.
    pub(crate) next: u32,
}

impl RowTest for IssuerTest {
    ghost use Rattle.std.specs.Prelude.{◌≡◌};
    ghost use Rattle.std.specs.List.{AllByRecursion};
    ghost use Rattle.store_adoption.specs.Cells.{IsIssuerCells, next_after};

    ghost passed = { λ test rows. AllByRecursion IsIssuerCells rows × (next_after rows ≡ test.next) };

    ghost are_formed = { λ test rows. AllByRecursion IsIssuerCells rows };

    fn take(&mut self, row: &Row) -> Result<(), StoreFault> {
        let id = below(row, 0, ID_LIMIT)?;
        self.next = id + 1;
        Ok(())
    }
}
