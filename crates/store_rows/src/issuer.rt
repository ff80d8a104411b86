//! Issuers and their ids.

ghost use Rattle.std.specs.Prelude.{◌≢◌, Err, IfOk, IfSome};
ghost use Rattle.store_sql.specs.Statements.{CommitsNothing};
ghost use Rattle.statements_facts.specs.Fact.{seen_issuer};
ghost use Rattle.store_rows.specs.Contents.{id_cells};
ghost use Rattle.store_rows.specs.Holding.{HasRoom, with_issuer};
ghost use Rattle.store_sql.specs.Inside.{inside, IsInTransaction, KeepsReference};
ghost use Rattle.store_rows.specs.Found.{IsIssuerId};
ghost use Rattle.store_rows.specs.Reading.{RefusesRows, IsIdShown};
ghost use Rattle.store_rows.specs.Room.{CanAddIssuer};
ghost use Rattle.store_rows.specs.Steps.{FindsIn, KnowsIn, CausedIn, CausedIfRoomIn, ChangesIn};

use crate::cell::natural;
use sqlite::{Alter, Row, Transaction};
use statements_facts::Issuer;
use store_sql::{StoreFault, insert_issuer, issuer_rows};

/// Ids are below this, so that places of entries are below 2^63.
pub const ID_LIMIT: u32 = 536_870_911;

fn read_ids(rows: &[Row]) -> Result<Option<u32>, StoreFault>
    ensures ok { IfOk result (IsIdShown rows.now) }
    ensures room { IfOk result (λ found. IfSome found HasRoom) }
    ensures schema { RefusesRows id_cells HasRoom rows.now result }
    ensures cell { result ≢ Err StoreFault.Store }
{
    match rows {
        [] => Ok(None),
        [row] => Ok(Some(natural(row, 0, ID_LIMIT)?)),
        _ => Err(StoreFault::Schema),
    }
}

/// The id of an issuer, if it has one.
pub fn find_issuer<S: Alter>(
    tx: &mut Transaction<'_, S>,
    issuer: &Issuer<'_>,
) -> Result<Option<u32>, StoreFault>
    requires inside { IsInTransaction S.Store tx.old }
    ensures same_reference { KeepsReference tx.old tx.new }
    ensures finds { FindsIn S.Store tx.old tx.new (IsIssuerId (seen_issuer issuer.now)) result }
    ensures known { KnowsIn S.Store tx.old tx.new (seen_issuer issuer.now) result }
    ensures room { IfOk result (λ id. IfSome id HasRoom) }
    ensures caused { CausedIn S.Store tx.old tx.new result }
    ensures survives { CommitsNothing (inside S.Store tx.old) (inside S.Store tx.new) }
{
    let rows = issuer_rows(tx, issuer.name.as_slice(), issuer.key_info)?;
    read_ids(rows.as_slice())
}

/// Adds an issuer, under the next id.
pub fn add_issuer<S: Alter>(
    tx: &mut Transaction<'_, S>,
    issuer: &Issuer<'_>,
) -> Result<(), StoreFault>
    requires inside { IsInTransaction S.Store tx.old }
    ensures same_reference { KeepsReference tx.old tx.new }
    ensures changes { ChangesIn S.Store tx.old tx.new
        (with_issuer (seen_issuer issuer.now)) result }
    ensures caused { CausedIfRoomIn S.Store tx.old tx.new
        (CanAddIssuer (seen_issuer issuer.now)) result }
    ensures survives { CommitsNothing (inside S.Store tx.old) (inside S.Store tx.new) }
{
    insert_issuer(tx, issuer.name.as_slice(), issuer.key_info)?;
    Ok(())
}
