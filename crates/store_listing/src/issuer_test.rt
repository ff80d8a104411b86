//! Issuers, read and kept.

ghost use Rattle.std.specs.Prelude.{◌≡◌, ◌≢◌, Err, IfOk};
ghost use Rattle.store_listing.specs.Cells.{IsIssuerRow, IsIssuerIn};

use crate::held::HeldIssuer;
use sqlite::Row;
use statements_facts::NameKey;
use store_adoption::{RowTest, below, blob};
use store_rows::ID_LIMIT;
use store_sql::StoreFault;

/// The issuers that have passed.
#[derive(Drop)]
pub(crate) struct IssuerTest {
    pub(crate) issuers: Vec<HeldIssuer>,
}

fn read_issuer(row: &Row) -> Result<HeldIssuer, StoreFault>
    ensures ok { IfOk result (IsIssuerIn row.now) }
    ensures schema { result ≡ Err StoreFault.Schema → IsIssuerRow row.now → ⊥ }
    ensures cell { result ≢ Err StoreFault.Store }
{
    let id = below(row, 0, ID_LIMIT)?;
    let name = blob(row, 1)?;
    let key_info = blob(row, 2)?;
    Ok(HeldIssuer {
        id,
        name: NameKey::from_octets(name),
        key_info,
    })
}

impl RowTest for IssuerTest {
    ghost use Rattle.std.specs.Prelude.{◌≡◌, map};
    ghost use Rattle.std.specs.List.{AllByRecursion};
    ghost use Rattle.store_listing.specs.Cells.{IsIssuerRow, held_issuer_in};
    ghost use Rattle.store_listing.specs.Listing.{seen_held_issuer};

    ghost passed = { λ test rows. AllByRecursion IsIssuerRow rows × (map seen_held_issuer test.issuers.items ≡ map held_issuer_in rows) };

    ghost are_formed = { λ test rows. AllByRecursion IsIssuerRow rows };

    fn take(&mut self, row: &Row) -> Result<(), StoreFault> {
        let issuer = read_issuer(row)?;
        self.issuers.push(issuer)?;
        Ok(())
    }
}
