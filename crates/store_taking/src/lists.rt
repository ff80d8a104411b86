//! Revocation lists that are put into a store.

ghost use Rattle.std.specs.Prelude.{◌≡◌, ◌<◌, ◌≤◌, ◌^◌, ℕ, suc, length, IfSome, IfNone, OnOk};
ghost use Rattle.statements_facts.specs.Fact.{seen_issuer};
ghost use Rattle.statements_facts.specs.Listed.{IsAscending};
ghost use Rattle.store_sql.specs.Statements.{CommitsNothing};
ghost use Rattle.store_rows.specs.Holding.{IsNumbered, FitInList};
ghost use Rattle.store_rows.specs.Seen.{seen_head};
ghost use Rattle.store_taking.specs.Lists.{crl_head, with_crl_facts, HeadDecides, EntriesDecide, ListIsTakenAs};
ghost use Rattle.store_sql.specs.Inside.{inside, IsInTransaction, KeepsReference, SucceedsOnlyIfOpen};
ghost use Rattle.store_taking.specs.Taking.{fact_of_crl, TakesFact, TakesUnder};
ghost use Rattle.store_rows.specs.Room.{CrlsLeaveAnId, EntriesFit, IssuerFitsRow};
ghost use Rattle.store_rows.specs.Steps.{FindsIn, ChangesIn, CausedOrIn, CausedIfRoomIn};
ghost use Rattle.store_taking.specs.Room.{IsStoreWithRoom, KnowsWithRoom, LeavesRoomIn, ListFits, TakesForCause, TakesUnderForCause};

use crate::known::issuer_id;
use asn::Number20;
use sqlite::{Alter, Transaction};
use statements_facts::{CrlFacts, Issuer, TakenAs};
use std::cmp::Ordering;
use store_rows::{Head, ListKey, find_crl, has_entries, replace_crl, replace_entries};
use store_sql::StoreFault;

/// A CRL number is below 2^160.
fn is_numbered(number: Number20)
    ensures { number < 2 ^ 160 }
{
    let _same = Number20::from_octets(number.to_octets());
}

fn head_of(list: &CrlFacts<'_>) -> Head
    ensures head { seen_head result ≡ crl_head list.now }
    ensures numbered { IsNumbered (seen_head result) }
{
    is_numbered(list.number);
    Head {
        number: list.number,
        from: list.from,
        until: list.until,
    }
}

/// What becomes of a list beside the one that is held, by number and window alone; `None` if these are the same.
fn outcome_by_head(held: &Head, list: &CrlFacts<'_>) -> Option<TakenAs>
    ensures some { IfSome result (HeadDecides held.now list.now) }
    ensures none { IfNone result (seen_head held.now ≡ crl_head list.now) }
{
    match list.number.cmp(&held.number) {
        Ordering::Less => Some(TakenAs::Kept),
        Ordering::Greater => Some(TakenAs::Stored),
        Ordering::Equal => {
            if list.from == held.from && list.until == held.until {
                None
            } else {
                Some(TakenAs::Contradicted)
            }
        }
    }
}

/// What becomes of a list whose number and window are those of the one that is held.
fn outcome_by_entries<S: Alter>(
    tx: &mut Transaction<'_, S>,
    key: &ListKey,
    list: &CrlFacts<'_>,
) -> Result<TakenAs, StoreFault>
    requires issuer { key.now.issuer < 536870911 }
    requires inside { IsInTransaction S.Store tx.old }
    ensures same_reference { KeepsReference tx.old tx.new }
    ensures finds { FindsIn S.Store tx.old tx.new (EntriesDecide key.now list.now) result }
    ensures ascend { IsAscending list.now.revoked }
    ensures caused { CausedOrIn S.Store tx.old tx.new
        (λ _. 4294967296 ≤ length list.now.revoked) result }
    ensures survives { CommitsNothing (inside S.Store tx.old) (inside S.Store tx.new) }
{
    if has_entries(tx, key, &list.revoked)? {
        Ok(TakenAs::Kept)
    } else {
        Ok(TakenAs::Contradicted)
    }
}

/// What becomes of a list beside the one that is held.
fn outcome_of_list<S: Alter>(
    tx: &mut Transaction<'_, S>,
    key: &ListKey,
    list: &CrlFacts<'_>,
) -> Result<TakenAs, StoreFault>
    requires issuer { key.now.issuer < 536870911 }
    requires inside { IsInTransaction S.Store tx.old }
    ensures same_reference { KeepsReference tx.old tx.new }
    ensures finds { FindsIn S.Store tx.old tx.new (ListIsTakenAs key.now list.now) result }
    ensures caused { CausedOrIn S.Store tx.old tx.new
        (λ _. 4294967296 ≤ length list.now.revoked) result }
    ensures survives { CommitsNothing (inside S.Store tx.old) (inside S.Store tx.new) }
{
    let Some(held) = find_crl(tx, key.issuer, key.scope)? else {
        return Ok(TakenAs::Stored);
    };
    match outcome_by_head(&held, list) {
        Some(outcome) => Ok(outcome),
        None => outcome_by_entries(tx, key, list),
    }
}

/// Puts a list, with its entries, in the place of that of its issuer and scope.
fn store_list<S: Alter>(
    tx: &mut Transaction<'_, S>,
    key: &ListKey,
    list: &CrlFacts<'_>,
) -> Result<(), StoreFault>
    requires issuer { key.now.issuer < 536870911 }
    requires inside { IsInTransaction S.Store tx.old }
    ensures same_reference { KeepsReference tx.old tx.new }
    ensures numbered { IsNumbered (crl_head list.now) }
    ensures formed { OnOk result (FitInList list.now.revoked) }
    ensures changes { ChangesIn S.Store tx.old tx.new (with_crl_facts key.now list.now) result }
    ensures caused { CausedIfRoomIn S.Store tx.old tx.new
        (λ it. CrlsLeaveAnId it × EntriesFit list.now.revoked) result }
    ensures survives { CommitsNothing (inside S.Store tx.old) (inside S.Store tx.new) }
{
    let head = head_of(list);
    replace_crl(tx, key.issuer, key.scope, &head)?;
    replace_entries(tx, key, &list.revoked)
}

fn take_under<S: Alter>(
    tx: &mut Transaction<'_, S>,
    id: u32,
    issuer: &Issuer<'_>,
    list: &CrlFacts<'_>,
) -> Result<TakenAs, StoreFault>
    requires issuer { id < 536870911 }
    requires inside { IsInTransaction S.Store tx.old }
    ensures same_reference { KeepsReference tx.old tx.new }
    ensures goes { TakesUnder S.Store tx.old tx.new id (fact_of_crl issuer.now list.now) result }
    ensures caused { TakesUnderForCause S.Store tx.old tx.new
        (seen_issuer issuer.now) id (ListFits list.now) result }
    ensures leaves { (issuers rows : ℕ) → LeavesRoomIn S.Store tx.old tx.new
        (KnowsWithRoom (seen_issuer issuer.now) id issuers (suc rows))
        (λ _. IsStoreWithRoom issuers rows) result }
    ensures survives { CommitsNothing (inside S.Store tx.old) (inside S.Store tx.new) }
{
    let key = ListKey {
        issuer: id,
        scope: list.scope,
    };
    let outcome = outcome_of_list(tx, &key, list)?;
    match outcome {
        TakenAs::Stored => {}
        _ => return Ok(outcome),
    }
    store_list(tx, &key, list)?;
    Ok(TakenAs::Stored)
}

/// Takes a list for one of those that it is kept for, inside a transaction: it is held if it is the first of that issuer and scope, or newer.
/// A fault leaves what was written so far, to be rolled back.
pub fn take_list<S: Alter>(
    tx: &mut Transaction<'_, S>,
    issuer: &Issuer<'_>,
    list: &CrlFacts<'_>,
) -> Result<TakenAs, StoreFault>
    requires inside { IsInTransaction S.Store tx.old }
    ensures same_reference { KeepsReference tx.old tx.new }
    ensures takes { TakesFact S.Store tx.old tx.new (fact_of_crl issuer.now list.now) result }
    ensures caused { TakesForCause S.Store tx.old tx.new
        (IssuerFitsRow (seen_issuer issuer.now) × ListFits list.now) result }
    ensures leaves { (issuers rows : ℕ) → LeavesRoomIn S.Store tx.old tx.new
        (IsStoreWithRoom (suc issuers) (suc rows)) (λ _. IsStoreWithRoom issuers rows) result }
    ensures open { SucceedsOnlyIfOpen S.Store tx.old tx.new result }
    ensures survives { CommitsNothing (inside S.Store tx.old) (inside S.Store tx.new) }
{
    let id = issuer_id(tx, issuer)?;
    take_under(tx, id, issuer, list)
}
