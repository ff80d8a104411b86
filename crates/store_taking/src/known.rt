//! The ids of issuers, who are added where they are new.

ghost use Rattle.std.specs.Prelude.{◌≡◌, ◌≢◌, ℕ, suc, ⊤, IfOk};
ghost use Rattle.statements_facts.specs.Fact.{seen_issuer};
ghost use Rattle.store_sql.specs.Statements.{CommitsNothing};
ghost use Rattle.store_rows.specs.Holding.{HasRoom};
ghost use Rattle.store_sql.specs.Inside.{inside, IsInTransaction, KeepsReference, SucceedsOnlyIfOpen};
ghost use Rattle.store_rows.specs.Room.{IssuerFitsRow};
ghost use Rattle.store_taking.specs.Passing.{KnowsIdIn, AddsIssuer, FindsOrAddsIssuer};
ghost use Rattle.store_taking.specs.Room.{CausedOverIn, LeavesRoomIn, FindsIdForCause, Knows, IsStoreWithRoom, KnowsWithRoom, LacksWithRoom};

use sqlite::{Alter, Transaction};
use statements_facts::Issuer;
use store_rows::{add_issuer, find_issuer};
use store_sql::StoreFault;

/// The row of an issuer that was just added is out of form only if its id is at the limit.
fn fault_of_added(fault: StoreFault) -> StoreFault
    ensures memory { fault ≡ StoreFault.Memory → result ≡ StoreFault.Memory }
    ensures schema { result ≢ StoreFault.Schema }
{
    match fault {
        StoreFault::Memory => StoreFault::Memory,
        _ => StoreFault::Store,
    }
}

/// The id of an issuer that was just added: none if it is at the limit.
fn id_of_added<S: Alter>(
    tx: &mut Transaction<'_, S>,
    issuer: &Issuer<'_>,
) -> Result<u32, StoreFault>
    requires inside { IsInTransaction S.Store tx.old }
    ensures same_reference { KeepsReference tx.old tx.new }
    ensures known { KnowsIdIn S.Store tx.old tx.new (seen_issuer issuer.now) result }
    ensures room { IfOk result HasRoom }
    ensures caused { CausedOverIn S.Store tx.old tx.new (Knows (seen_issuer issuer.now)) ⊤ result }
    ensures survives { CommitsNothing (inside S.Store tx.old) (inside S.Store tx.new) }
{
    match find_issuer(tx, issuer) {
        Ok(Some(id)) => Ok(id),
        Ok(None) => Err(StoreFault::Store),
        Err(fault) => Err(fault_of_added(fault)),
    }
}

fn new_issuer<S: Alter>(tx: &mut Transaction<'_, S>, issuer: &Issuer<'_>) -> Result<u32, StoreFault>
    requires inside { IsInTransaction S.Store tx.old }
    ensures same_reference { KeepsReference tx.old tx.new }
    ensures goes { AddsIssuer S.Store tx.old tx.new (seen_issuer issuer.now) result }
    ensures room { IfOk result HasRoom }
    ensures caused { (issuers rows : ℕ) → CausedOverIn S.Store tx.old tx.new
        (LacksWithRoom (seen_issuer issuer.now) (suc issuers) rows)
        (IssuerFitsRow (seen_issuer issuer.now)) result }
    ensures leaves { (issuers rows : ℕ) → LeavesRoomIn S.Store tx.old tx.new
        (LacksWithRoom (seen_issuer issuer.now) (suc issuers) rows)
        (λ id. KnowsWithRoom (seen_issuer issuer.now) id issuers rows) result }
    ensures survives { CommitsNothing (inside S.Store tx.old) (inside S.Store tx.new) }
{
    add_issuer(tx, issuer)?;
    id_of_added(tx, issuer)
}

/// The id of an issuer, who is added if it is new: that changes nothing that is held.
pub(crate) fn issuer_id<S: Alter>(
    tx: &mut Transaction<'_, S>,
    issuer: &Issuer<'_>,
) -> Result<u32, StoreFault>
    requires inside { IsInTransaction S.Store tx.old }
    ensures same_reference { KeepsReference tx.old tx.new }
    ensures goes { FindsOrAddsIssuer S.Store tx.old tx.new (seen_issuer issuer.now) result }
    ensures caused { FindsIdForCause S.Store tx.old tx.new (seen_issuer issuer.now) result }
    ensures leaves { (issuers rows : ℕ) → LeavesRoomIn S.Store tx.old tx.new
        (IsStoreWithRoom (suc issuers) rows)
        (λ id. KnowsWithRoom (seen_issuer issuer.now) id issuers rows) result }
    ensures open { SucceedsOnlyIfOpen S.Store tx.old tx.new result }
    ensures room { IfOk result HasRoom }
    ensures survives { CommitsNothing (inside S.Store tx.old) (inside S.Store tx.new) }
{
    match find_issuer(tx, issuer)? {
        Some(id) => Ok(id),
        None => new_issuer(tx, issuer),
    }
}
