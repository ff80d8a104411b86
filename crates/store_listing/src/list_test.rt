//! Revocation lists, read and kept.

ghost use Rattle.std.specs.Prelude.{◌≡◌, ◌≢◌, ◌<◌, Err, IfOk};
ghost use Rattle.store_listing.specs.Cells.{HasHeldHead, IsHeadIn, IsListRow, IsHeldListIn, held_scope_in};

use crate::counted::KeyedHead;
use sqlite::Row;
use statements_facts::Scope;
use store_adoption::{RowTest, below, number, signed};
use store_rows::{Head, ID_LIMIT, ListKey};
use store_sql::StoreFault;

/// The lists that have passed.
#[derive(Drop)]
pub(crate) struct ListTest {
    pub(crate) heads: Vec<KeyedHead>,
}

/// The scope with this number in the tables.
fn scope_of(number: u32) -> Scope
    ensures { result ≡ held_scope_in number }
{
    match number {
        0 => Scope::All,
        1 => Scope::User,
        _ => Scope::Ca,
    }
}

fn read_head(row: &Row) -> Result<Head, StoreFault>
    ensures ok { IfOk result (IsHeadIn row.now) }
    ensures schema { result ≡ Err StoreFault.Schema → HasHeldHead row.now → ⊥ }
    ensures cell { result ≢ Err StoreFault.Store }
{
    let number = number(row, 2)?;
    let from = signed(row, 3)?;
    let until = signed(row, 4)?;
    Ok(Head {
        number,
        from,
        until,
    })
}

fn read_list(row: &Row) -> Result<KeyedHead, StoreFault>
    ensures ok { IfOk result (IsHeldListIn row.now) }
    ensures schema { result ≡ Err StoreFault.Schema → IsListRow row.now → ⊥ }
    ensures cell { result ≢ Err StoreFault.Store }
{
    let issuer = below(row, 0, ID_LIMIT)?;
    let scope = scope_of(below(row, 1, 3)?);
    let head = read_head(row)?;
    Ok(KeyedHead {
        list: ListKey { issuer, scope },
        head,
    })
}

impl RowTest for ListTest {
    ghost use Rattle.std.specs.Prelude.{◌≡◌, map};
    ghost use Rattle.std.specs.List.{AllByRecursion};
    ghost use Rattle.store_listing.specs.Cells.{IsListRow, list_in};
    ghost use Rattle.store_listing.specs.Listing.{seen_keyed};

    ghost passed = { λ test rows. AllByRecursion IsListRow rows × (map seen_keyed test.heads.items ≡ map list_in rows) };

    ghost are_formed = { λ test rows. AllByRecursion IsListRow rows };

    fn take(&mut self, row: &Row) -> Result<(), StoreFault> {
        let list = read_list(row)?;
        self.heads.push(list)?;
        Ok(())
    }
}
