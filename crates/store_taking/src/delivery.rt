//! Deliveries: all facts of a statement, in one transaction.

ghost use Rattle.std.specs.Prelude.{◌≡◌, false, Err, IsTrue};
ghost use Rattle.sqlite.specs.Held.{state};
ghost use Rattle.statements_facts.specs.Fact.{facts_in};
ghost use Rattle.store_sql.specs.Statements.{CommitsNothing, IsDurable};
ghost use Rattle.store_sql.specs.Inside.{inside, IsInTransaction, KeepsReference, SucceedsOnlyIfOpen};
ghost use Rattle.store_taking.specs.Taking.{TakesFacts};
ghost use Rattle.store_taking.specs.Delivery.{EndsDelivery, PutsFacts, AllOrNothing};
ghost use Rattle.store_taking.specs.Room.{CausedOverIn, FactsFit, HasRoomForFacts, ListFits, PutsForCause, ResponseFits};

use crate::lists::take_list;
use crate::responses::take_single;
use sqlite::{Alter, Connection, Transaction};
use statements_facts::{Counts, CrlFacts, Facts, OcspFacts};
use store_sql::StoreFault;

/// Takes a list for each of those that it is kept for, in order.
fn take_lists<S: Alter>(
    tx: &mut Transaction<'_, S>,
    list: &CrlFacts<'_>,
) -> Result<Counts, StoreFault>
    requires inside { IsInTransaction S.Store tx.old }
    ensures same_reference { KeepsReference tx.old tx.new }
    ensures takes { TakesFacts S.Store tx.old tx.new (facts_in (Facts.Crl list.now)) result }
    ensures caused { CausedOverIn S.Store tx.old tx.new
        (HasRoomForFacts (Facts.Crl list.now)) (ListFits list.now) result }
    ensures open { SucceedsOnlyIfOpen S.Store tx.old tx.new result }
    ensures survives { CommitsNothing (inside S.Store tx.old) (inside S.Store tx.new) }
{
    let outcome = take_list(tx, &list.issuer, list)?;
    let mut counts = Counts::none().and(outcome);
    'each: for issuer in list.others.as_slice() {
        let outcome = take_list(tx, issuer, list)?;
        counts = counts.and(outcome);
    }
    Ok(counts)
}

fn take_singles<S: Alter>(
    tx: &mut Transaction<'_, S>,
    response: &OcspFacts<'_>,
) -> Result<Counts, StoreFault>
    requires inside { IsInTransaction S.Store tx.old }
    ensures same_reference { KeepsReference tx.old tx.new }
    ensures takes { TakesFacts S.Store tx.old tx.new (facts_in (Facts.Ocsp response.now)) result }
    ensures caused { CausedOverIn S.Store tx.old tx.new
        (HasRoomForFacts (Facts.Ocsp response.now)) (ResponseFits response.now) result }
    ensures open { SucceedsOnlyIfOpen S.Store tx.old tx.new result }
    ensures survives { CommitsNothing (inside S.Store tx.old) (inside S.Store tx.new) }
{
    let all = response.singles.as_slice();
    let mut counts = Counts::none();
    'each: for single in all {
        let outcome = take_single(tx, &response.issuer, single)?;
        counts = counts.and(outcome);
    }
    Ok(counts)
}

/// Takes all facts of a statement, in order, inside a transaction.
fn take_all<S: Alter>(tx: &mut Transaction<'_, S>, facts: &Facts<'_>) -> Result<Counts, StoreFault>
    requires inside { IsInTransaction S.Store tx.old }
    ensures same_reference { KeepsReference tx.old tx.new }
    ensures takes { TakesFacts S.Store tx.old tx.new (facts_in facts.now) result }
    ensures caused { CausedOverIn S.Store tx.old tx.new
        (HasRoomForFacts facts.now) (FactsFit facts.now) result }
    ensures open { SucceedsOnlyIfOpen S.Store tx.old tx.new result }
    ensures survives { CommitsNothing (inside S.Store tx.old) (inside S.Store tx.new) }
{
    match facts {
        Facts::Crl(list) => take_lists(tx, list),
        Facts::Ocsp(response) => take_singles(tx, response),
    }
}

/// All facts, in one transaction that begins and ends here.
fn deliver<S: Alter>(conn: &mut Connection<S>, facts: &Facts<'_>) -> Result<Counts, StoreFault>
    requires idle { conn.old.in_transaction ≡ false }
    ensures idle { conn.new.in_transaction ≡ false }
    ensures ends { EndsDelivery (state S.Store conn.old) (state S.Store conn.new) facts.now result }
    ensures caused { PutsForCause (state S.Store conn.old) (state S.Store conn.new)
        facts.now result }
    ensures settled { IsDurable (state S.Store conn.new) }
    ensures survives { AllOrNothing (state S.Store conn.old) (state S.Store conn.new) facts.now }
{
    let mut tx = conn.transaction();
    let counts = take_all(&mut tx, facts)?;
    tx.commit()?;
    Ok(counts)
}

/// Puts all facts of a statement into a store, in order and in one transaction; then each slot holds the newest. After a fault what is
/// held is as it was. A connection in a transaction is refused.
pub fn put<S: Alter>(conn: &mut Connection<S>, facts: &Facts<'_>) -> Result<Counts, StoreFault>
    ensures idle { conn.old.in_transaction ≡ false → conn.new.in_transaction ≡ false }
    ensures busy { IsTrue conn.old.in_transaction → result ≡ Err StoreFault.Store }
    ensures puts { PutsFacts (state S.Store conn.old) (state S.Store conn.new) facts.now result }
    ensures caused { conn.old.in_transaction ≡ false → PutsForCause
        (state S.Store conn.old) (state S.Store conn.new) facts.now result }
    ensures survives { AllOrNothing (state S.Store conn.old) (state S.Store conn.new) facts.now }
{
    if !conn.is_autocommit() {
        return Err(StoreFault::Store);
    }
    deliver(conn, facts)
}
