//! What responses say of single certificates, put into a store.

ghost use Rattle.std.specs.Prelude.{◌↔◌, ◌<◌, ℕ, suc, IsTrue};
ghost use Rattle.statements_facts.specs.Fact.{seen_issuer};
ghost use Rattle.statements_facts.specs.Single.{seen_single};
ghost use Rattle.store_sql.specs.Statements.{CommitsNothing};
ghost use Rattle.store_rows.specs.Holding.{HasReason};
ghost use Rattle.store_sql.specs.Inside.{inside, IsInTransaction, KeepsReference, SucceedsOnlyIfOpen};
ghost use Rattle.store_taking.specs.Taking.{fact_from, TakesFact, TakesUnder};
ghost use Rattle.store_taking.specs.Lists.{SaysSame, SingleIsTakenBeside, SingleIsTakenAs};
ghost use Rattle.store_rows.specs.Room.{IssuerFitsRow, SingleFitsRow};
ghost use Rattle.store_rows.specs.Steps.{FindsIn, CausedIn};
ghost use Rattle.store_taking.specs.Room.{LeavesRoomIn, TakesForCause, TakesUnderForCause, IsStoreWithRoom, KnowsWithRoom};

use crate::known::issuer_id;
use sqlite::{Alter, Transaction};
use statements_facts::{Issuer, OcspAnswer, Single, Status, TakenAs};
use std::cmp::Ordering;
use store_rows::{find_single, replace_single};
use store_sql::StoreFault;

/// Whether the two say the same of a certificate for the same time.
fn says_same(held: &OcspAnswer, single: &Single<'_>) -> bool
    ensures { IsTrue result ↔ SaysSame held.now single.now }
{
    single.from == held.from && single.until == held.until && single.status == held.status
}

/// What becomes of a single response beside what is held of its certificate.
fn outcome_beside(held: &OcspAnswer, single: &Single<'_>) -> TakenAs
    ensures { SingleIsTakenBeside held.now single.now result }
{
    let this_update = single.this_update.cmp(&held.this_update);
    match this_update.then(single.produced_at.cmp(&held.produced_at)) {
        Ordering::Less => TakenAs::Kept,
        Ordering::Greater => TakenAs::Stored,
        Ordering::Equal => {
            if says_same(held, single) {
                TakenAs::Kept
            } else {
                TakenAs::Contradicted
            }
        }
    }
}

/// A reason is one octet.
fn is_said(status: Status)
    ensures { HasReason status }
{
    match status {
        Status::Revoked(_reason) => {}
        _ => {}
    }
}

fn outcome_of_single<S: Alter>(
    tx: &mut Transaction<'_, S>,
    id: u32,
    single: &Single<'_>,
) -> Result<TakenAs, StoreFault>
    requires inside { IsInTransaction S.Store tx.old }
    ensures same_reference { KeepsReference tx.old tx.new }
    ensures finds { FindsIn S.Store tx.old tx.new (SingleIsTakenAs id single.now) result }
    ensures caused { CausedIn S.Store tx.old tx.new result }
    ensures survives { CommitsNothing (inside S.Store tx.old) (inside S.Store tx.new) }
{
    match find_single(tx, id, &single.name_hash, single.serial)? {
        Some(held) => Ok(outcome_beside(&held, single)),
        None => Ok(TakenAs::Stored),
    }
}

fn take_under<S: Alter>(
    tx: &mut Transaction<'_, S>,
    id: u32,
    issuer: &Issuer<'_>,
    single: &Single<'_>,
) -> Result<TakenAs, StoreFault>
    requires issuer { id < 536870911 }
    requires inside { IsInTransaction S.Store tx.old }
    ensures same_reference { KeepsReference tx.old tx.new }
    ensures goes { TakesUnder S.Store tx.old tx.new id (fact_from issuer.now single.now) result }
    ensures caused { TakesUnderForCause S.Store tx.old tx.new
        (seen_issuer issuer.now) id (SingleFitsRow (seen_single single.now)) result }
    ensures leaves { (issuers rows : ℕ) → LeavesRoomIn S.Store tx.old tx.new
        (KnowsWithRoom (seen_issuer issuer.now) id issuers (suc rows))
        (λ _. IsStoreWithRoom issuers rows) result }
    ensures survives { CommitsNothing (inside S.Store tx.old) (inside S.Store tx.new) }
{
    let outcome = outcome_of_single(tx, id, single)?;
    match outcome {
        TakenAs::Stored => {}
        _ => return Ok(outcome),
    }
    is_said(single.status);
    replace_single(tx, id, single)?;
    Ok(TakenAs::Stored)
}

/// Takes what a response says of one certificate, inside a transaction: it is held if it is the first, or newer. A fault leaves what was
/// written so far, to be rolled back.
pub fn take_single<S: Alter>(
    tx: &mut Transaction<'_, S>,
    issuer: &Issuer<'_>,
    single: &Single<'_>,
) -> Result<TakenAs, StoreFault>
    requires inside { IsInTransaction S.Store tx.old }
    ensures same_reference { KeepsReference tx.old tx.new }
    ensures takes { TakesFact S.Store tx.old tx.new (fact_from issuer.now single.now) result }
    ensures caused { TakesForCause S.Store tx.old tx.new
        (IssuerFitsRow (seen_issuer issuer.now) × SingleFitsRow (seen_single single.now)) result }
    ensures leaves { (issuers rows : ℕ) → LeavesRoomIn S.Store tx.old tx.new
        (IsStoreWithRoom (suc issuers) (suc rows)) (λ _. IsStoreWithRoom issuers rows) result }
    ensures open { SucceedsOnlyIfOpen S.Store tx.old tx.new result }
    ensures survives { CommitsNothing (inside S.Store tx.old) (inside S.Store tx.new) }
{
    let id = issuer_id(tx, issuer)?;
    take_under(tx, id, issuer, single)
}
