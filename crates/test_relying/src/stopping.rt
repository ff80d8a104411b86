//! Runs that stop at a restart: what was delivered before it is told, and is still there. The restart fails because the database has another
//! table by then.

ghost use Rattle.std.specs.Prelude.{◌≡◌, false};

use crate::answering::{LEAF, REVOKING, STORED};
use crate::asking::{MIDDLE, verdict_on};
use crate::telling::{Party, Told, after, events_of, pairs_of};
use relying::Verdict::Revoked;
use relying::{DeliverAnswer, DeliverFault, Event, Node, RunFault};
use sqlite::{Alter, Connection};
use sqlite_disk::Memory;
use std::alloc::Global;
use store::{Refused, ReopenFault, Store};
use store_sql::StoreFault;
use vectors::ToyVerifier;

/// A list that revokes the leaf, and then a restart.
const TOLD: &[Told] = &[REVOKING, None];

/// Whether the statement is executed and committed.
fn is_committed<S: Alter>(conn: &mut Connection<S>, sql: &str) -> bool
    requires idle { conn.old.in_transaction ≡ false }
    ensures idle { conn.new.in_transaction ≡ false }
{
    let mut tx = conn.transaction();
    if tx.execute(sql, &[]).is_err() {
        return false;
    }
    tx.commit().is_ok()
}

/// A party that holds nothing, and whose database has another table.
fn with_another_table(alloc: Global) -> Option<Party> {
    let (party, _answers) = after(alloc, &[])?;
    let mut store = party.into_store();
    let sql = "CREATE TABLE another (id INTEGER PRIMARY KEY)";
    if !is_committed(&mut store.conn, sql) {
        return None;
    }
    Some(Node::new(ToyVerifier, store))
}

/// The connection that is left where the second event fails, as no store.
fn left_of(fault: RunFault<ToyVerifier, Memory>) -> Option<Refused<Memory>> {
    match fault {
        RunFault::Restart(1, ReopenFault::Adopt(refused)) => Some(refused),
        _ => None,
    }
}

/// Whether the tables are refused, and without the other table the connection is a store that holds the list.
fn still_holds(alloc: Global, refused: Refused<Memory>) -> Option<bool> {
    let Refused { fault, mut conn } = refused;
    if fault != StoreFault::Schema || !is_committed(&mut conn, "DROP TABLE another") {
        return Some(false);
    }
    let store = Store::adopt(alloc, conn).ok()?;
    let mut party = Node::new(ToyVerifier, store);
    Some(verdict_on(alloc, &mut party, LEAF, MIDDLE)? == Ok(Revoked(1, 1)))
}

/// What is left of the run, whose answers are dropped.
fn run(alloc: Global, events: &[Event<'_>]) -> Option<Refused<Memory>> {
    match with_another_table(alloc)?.run(alloc, events) {
        Ok(_) => None,
        Err(fault) => left_of(fault),
    }
}

fn run_stops(alloc: Global) -> Option<bool> {
    let pairs = pairs_of(alloc, TOLD)?;
    let events = events_of(alloc, &pairs)?;
    still_holds(alloc, run(alloc, &events)?)
}

#[test]
fn a_run_stops_behind_the_delivery(rt: HostRuntime) {
    assert_eq!(rt; run_stops(rt.alloc()), Some(true));
}

/// What is left of the run, which tells its answers.
fn run_into(
    alloc: Global,
    events: &[Event<'_>],
    answers: &mut Vec<DeliverAnswer>,
) -> Option<Refused<Memory>> {
    match with_another_table(alloc)?.run_into(alloc, events, answers) {
        Ok(_) => None,
        Err(fault) => left_of(fault),
    }
}

/// The answers, which were another one before, and whether the list is held.
fn run_into_stops(alloc: Global) -> Option<bool> {
    let pairs = pairs_of(alloc, TOLD)?;
    let events = events_of(alloc, &pairs)?;
    let mut answers = Vec::new(alloc);
    answers
        .push(Err(DeliverFault::Store(StoreFault::Store)))
        .ok()?;
    let refused = run_into(alloc, &events, &mut answers)?;
    Some(answers.as_slice() == [STORED].as_slice() && still_holds(alloc, refused)?)
}

#[test]
fn its_answers_are_told(rt: HostRuntime) {
    assert_eq!(rt; run_into_stops(rt.alloc()), Some(true));
}
