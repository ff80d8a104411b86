//! What responses say of single certificates, read and kept.

ghost use Rattle.std.specs.Prelude.{◌≡◌, ◌≢◌, Err, IfOk};
ghost use Rattle.store_listing.specs.Cells.{HasHeldStatus, IsStatusIn, HasSaid, IsHeldAnswerIn, IsSingleRow, IsSingleIn, status_in};

use crate::held::HeldSingle;
use sqlite::Row;
use statements_facts::{OcspAnswer, Status};
use store_adoption::{RowTest, below, blob, signed};
use store_rows::ID_LIMIT;
use store_sql::StoreFault;

/// What has passed.
#[derive(Drop)]
pub(crate) struct SingleTest {
    pub(crate) singles: Vec<HeldSingle>,
}

/// The status with this number in the tables.
fn status_of(number: u32, reason: u8) -> Status
    ensures { result ≡ status_in number reason }
{
    match number {
        0 => Status::Good,
        1 => Status::Revoked(reason),
        _ => Status::Unknown,
    }
}

fn read_status(row: &Row) -> Result<Status, StoreFault>
    ensures ok { IfOk result (IsStatusIn row.now) }
    ensures schema { result ≡ Err StoreFault.Schema → HasHeldStatus row.now → ⊥ }
    ensures cell { result ≢ Err StoreFault.Store }
{
    let number = below(row, 7, 3)?;
    let reason = below(row, 8, 256)?;
    Ok(status_of(number, reason as u8))
}

fn read_said(row: &Row) -> Result<OcspAnswer, StoreFault>
    ensures ok { IfOk result (IsHeldAnswerIn row.now) }
    ensures schema { result ≡ Err StoreFault.Schema → HasSaid row.now → ⊥ }
    ensures cell { result ≢ Err StoreFault.Store }
{
    let this_update = signed(row, 3)?;
    let produced_at = signed(row, 4)?;
    let from = signed(row, 5)?;
    let until = signed(row, 6)?;
    let status = read_status(row)?;
    Ok(OcspAnswer {
        this_update,
        produced_at,
        from,
        until,
        status,
    })
}

fn read_single(row: &Row) -> Result<HeldSingle, StoreFault>
    ensures ok { IfOk result (IsSingleIn row.now) }
    ensures schema { result ≡ Err StoreFault.Schema → IsSingleRow row.now → ⊥ }
    ensures cell { result ≢ Err StoreFault.Store }
{
    let issuer = below(row, 0, ID_LIMIT)?;
    let name_hash = blob(row, 1)?;
    let serial = blob(row, 2)?;
    let said = read_said(row)?;
    Ok(HeldSingle {
        issuer,
        name_hash,
        serial,
        said,
    })
}

impl RowTest for SingleTest {
    ghost use Rattle.std.specs.Prelude.{◌≡◌, map};
    ghost use Rattle.std.specs.List.{AllByRecursion};
    ghost use Rattle.store_listing.specs.Cells.{IsSingleRow, single_in};
    ghost use Rattle.store_listing.specs.Listing.{seen_held_single};

    ghost passed = { λ test rows. AllByRecursion IsSingleRow rows × (map seen_held_single test.singles.items ≡ map single_in rows) };

    ghost are_formed = { λ test rows. AllByRecursion IsSingleRow rows };

    fn take(&mut self, row: &Row) -> Result<(), StoreFault> {
        let single = read_single(row)?;
        self.singles.push(single)?;
        Ok(())
    }
}
