//! Entries, counted list by list.

ghost use Rattle.std.specs.Prelude.{◌≡◌, ◌≢◌, Err, IfOk};
ghost use Rattle.store_listing.specs.Cells.{IsKeyRow, IsListNumberIn};

use crate::counted::{count_one, list_number};
use sqlite::Row;
use std::collections::BTreeMap;
use store_adoption::{RowTest, below};
use store_rows::ID_LIMIT;
use store_sql::StoreFault;

/// How many entries of each list have passed.
#[derive(Drop)]
pub(crate) struct CountTest {
    pub(crate) counts: BTreeMap<u64, u64>,
}

/// The number of the list that an entry is of.
fn read_list_number(row: &Row) -> Result<u64, StoreFault>
    ensures ok { IfOk result (IsListNumberIn row.now) }
    ensures schema { result ≡ Err StoreFault.Schema → IsKeyRow row.now → ⊥ }
    ensures cell { result ≢ Err StoreFault.Store }
{
    let issuer = below(row, 0, ID_LIMIT)?;
    let scope = below(row, 1, 3)?;
    Ok(list_number(issuer, scope))
}

impl RowTest for CountTest {
    ghost use Rattle.std.specs.Prelude.{map};
    ghost use Rattle.std.specs.List.{AllByRecursion};
    ghost use Rattle.store_listing.specs.Cells.{IsKeyRow, list_of};
    ghost use Rattle.store_listing.specs.Counts.{AreCounted, HaveRoom};

    ghost passed = { λ test rows. AllByRecursion IsKeyRow rows × AreCounted test.counts (map list_of rows) };

    ghost are_formed = { λ test rows. AllByRecursion IsKeyRow rows × HaveRoom (map list_of rows) };

    fn take(&mut self, row: &Row) -> Result<(), StoreFault> {
        let list = read_list_number(row)?;
        count_one(&mut self.counts, list)
    }
}
