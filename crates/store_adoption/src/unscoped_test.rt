//! Lists of version 1 and their entries, read and kept.

ghost use Rattle.std.specs.Prelude.{◌≡◌, Err, IfOk, ◌≢◌};
ghost use Rattle.store_adoption.specs.Cells.{IsUnscopedCrlCells, IsUnscopedEntryCells, HasHead, head_in, unscoped_crl_in, unscoped_entry_in};
ghost use Rattle.store_adoption.specs.Seen.{seen_unscoped_list, seen_own, IsListIn, IsOwnIn};
ghost use Rattle.store_rows.specs.Seen.{seen_head};

use crate::cell::{below, blob, number, signed};
use crate::row_test::RowTest;
use crate::unscoped::{OwnEntry, UnscopedList};
use sqlite::Row;
use store_rows::Head;
use store_sql::StoreFault;

/// Each list stands under an id below that of the next issuer.
#[derive(Drop)]
pub(crate) struct ListTest {
    pub(crate) next: u32,
    /// Those that have passed.
    pub(crate) lists: Vec<UnscopedList>,
}

fn read_head(row: &Row) -> Result<Head, StoreFault>
    ensures ok { IfOk result (λ head. HasHead row.now × (seen_head head ≡ head_in row.now)) }
    ensures schema { result ≡ Err StoreFault.Schema → HasHead row.now → ⊥ }
    ensures cell { result ≢ Err StoreFault.Store }
{
    let number = number(row, 1)?;
    let from = signed(row, 2)?;
    let until = signed(row, 3)?;
    Ok(Head {
        number,
        from,
        until,
    })
}

fn read_list(row: &Row, next: u32) -> Result<UnscopedList, StoreFault>
    ensures ok { IfOk result (IsListIn next row.now) }
    ensures schema { result ≡ Err StoreFault.Schema → IsUnscopedCrlCells next row.now → ⊥ }
    ensures cell { result ≢ Err StoreFault.Store }
{
    let issuer = below(row, 0, next)?;
    let head = read_head(row)?;
    Ok(UnscopedList { issuer, head })
}

impl RowTest for ListTest {
    ghost use Rattle.std.specs.Prelude.{◌≡◌, map};
    ghost use Rattle.std.specs.List.{AllByRecursion};
    ghost use Rattle.store_adoption.specs.Cells.{IsUnscopedCrlCells, unscoped_crl_in};
    ghost use Rattle.store_adoption.specs.Seen.{seen_unscoped_list};

    ghost passed = { λ test rows. AllByRecursion (IsUnscopedCrlCells test.next) rows × (map seen_unscoped_list test.lists.items ≡ map unscoped_crl_in rows) };

    ghost are_formed = { λ test rows. AllByRecursion (IsUnscopedCrlCells test.next) rows };

    fn take(&mut self, row: &Row) -> Result<(), StoreFault> {
        let list = read_list(row, self.next)?;
        self.lists.push(list)?;
        Ok(())
    }
}

/// Each entry stands under an id below that of the next issuer.
#[derive(Drop)]
pub(crate) struct OwnTest {
    pub(crate) next: u32,
    /// Those that have passed.
    pub(crate) entries: Vec<OwnEntry>,
}

fn read_own(row: &Row, next: u32) -> Result<OwnEntry, StoreFault>
    ensures ok { IfOk result (IsOwnIn next row.now) }
    ensures schema { result ≡ Err StoreFault.Schema → IsUnscopedEntryCells next row.now → ⊥ }
    ensures cell { result ≢ Err StoreFault.Store }
{
    let issuer = below(row, 0, next)?;
    let serial = blob(row, 1)?;
    let reason = below(row, 2, 256)?;
    Ok(OwnEntry {
        issuer,
        serial,
        reason: reason as u8,
    })
}

impl RowTest for OwnTest {
    ghost use Rattle.std.specs.Prelude.{◌≡◌, map};
    ghost use Rattle.std.specs.List.{AllByRecursion};
    ghost use Rattle.store_adoption.specs.Cells.{IsUnscopedEntryCells, unscoped_entry_in};
    ghost use Rattle.store_adoption.specs.Seen.{seen_own};

    ghost passed = { λ test rows. AllByRecursion (IsUnscopedEntryCells test.next) rows × (map seen_own test.entries.items ≡ map unscoped_entry_in rows) };

    ghost are_formed = { λ test rows. AllByRecursion (IsUnscopedEntryCells test.next) rows };

    fn take(&mut self, row: &Row) -> Result<(), StoreFault> {
        let entry = read_own(row, self.next)?;
        self.entries.push(entry)?;
        Ok(())
    }
}
