//! The version of the tables.

ghost use Rattle.std.specs.Prelude.{◌≡◌, ◌<◌, ◌↔◌, ℕ, IfOk, IsTrue, Err, Some, ◌≢◌};
ghost use Rattle.store_adoption.specs.Cells.{IsVersionCells};

use crate::cell::below;
use crate::row_test::RowTest;
use sqlite::Row;
use store_sql::StoreFault;

/// There is one row, which says a version below 4.
#[derive(Drop)]
pub(crate) struct VersionTest {
    /// The version, if the row was there.
    pub(crate) version: Option<u32>,
}

/// Whether it is this version.
pub(crate) fn is_version(version: Option<u32>, wanted: u32) -> bool
    ensures { IsTrue result ↔ (version ≡ Some wanted) }
{
    version == Some(wanted)
}

fn version_in(row: &Row) -> Result<u32, StoreFault>
    ensures ok { IfOk result (λ version. IsVersionCells version row.now) }
    ensures schema { result ≡ Err StoreFault.Schema
        → (version : ℕ) → version < 4 → IsVersionCells version row.now → ⊥ }
    ensures cell { result ≢ Err StoreFault.Store }
{
    let id = below(row, 0, 2)?;
    let version = below(row, 1, 4)?;
    if id == 1 {
        Ok(version)
    } else {
        Err(StoreFault::Schema)
    }
}

impl RowTest for VersionTest {
    ghost use Rattle.store_adoption.specs.Cells.{AreVersionRows, AreRowsOfVersion};

    ghost passed = { λ test rows. AreRowsOfVersion test.version rows };

    ghost are_formed = { λ test rows. AreVersionRows rows };

    fn take(&mut self, row: &Row) -> Result<(), StoreFault> {
        if self.version.is_some() {
            return Err(StoreFault::Schema);
        }
        self.version = Some(version_in(row)?);
        Ok(())
    }
}
