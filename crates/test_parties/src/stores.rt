//! Stores and parties over disks in memory. `None` is answered where one cannot be had. Each call of theirs stands in one function
//! here, without a contract: its clauses are long, and every function that calls it reads them.

use relying::{DeliverAnswer, Event, Node};
use sqlite::{Connection, FileStore, Files, Options};
use sqlite_disk::Memory;
use statements_facts::{Counts, Facts, Issuer, Scope};
use std::alloc::Global;
use store::Store;
use vectors::ToyVerifier;

pub type Disks = FileStore<Memory>;

/// Files of which none is written yet.
pub fn empty(alloc: Global) -> Files<Memory> {
    Files {
        log: Memory::new(alloc),
        db: Memory::new(alloc),
    }
}

/// A store that holds nothing.
pub fn made(alloc: Global) -> Option<Store<Memory>> {
    let files = empty(alloc);
    if !files.may_be_used() {
        return None;
    }
    match Connection::open_files(alloc, files, Options::new(7)) {
        Ok(conn) => Store::create(conn).ok(),
        Err(_) => None,
    }
}

/// The store in these files.
pub fn adopted_from(alloc: Global, files: Files<Memory>) -> Option<Store<Memory>> {
    if !files.may_be_used() {
        return None;
    }
    match Connection::open_files(alloc, files, Options::new(7)) {
        Ok(conn) => Store::adopt(alloc, conn).ok(),
        Err(_) => None,
    }
}

/// The store's files, opened and taken for a store again.
pub fn adopted(alloc: Global, store: Store<Memory>) -> Option<Store<Memory>> {
    adopted_from(alloc, store.into_files().ok()?)
}

/// How the facts are counted that the store takes.
pub fn put(store: &mut Store<Memory>, facts: &Facts<'_>) -> Option<Counts> {
    store.put(facts).ok()
}

/// The reason for which the issuer's list revokes the serial number; `Some(None)` if it does not list it.
pub fn reason(store: &mut Store<Memory>, issuer: &Issuer<'_>, serial: &[u8]) -> Option<Option<u8>> {
    let held = store.crl(issuer, Scope::All, serial).ok()??;
    Some(held.reason)
}

/// What a party answers that holds nothing at first.
pub fn answers_to(alloc: Global, events: &[Event<'_>]) -> Option<Vec<DeliverAnswer>> {
    let node = Node::new(ToyVerifier, made(alloc)?);
    let (_node, answers) = node.run(alloc, events).ok()?;
    Some(answers)
}
