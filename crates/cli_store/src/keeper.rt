//! A store that keeps a session's statements.
ghost use Rattle.std.specs.Prelude.{◌≡◌, ◌⊎◌, Err, false, IfOk, IsTrue, OnOk};
ghost use Rattle.sqlite.specs.Files.{file_state};
ghost use Rattle.sqlite.specs.State.{HasCleanDisk};
ghost use Rattle.statements_facts.specs.Fact.{facts_in};
ghost use Rattle.path.specs.Reading.{seen_query};
ghost use Rattle.path_issuers.specs.View.{seen_search};
ghost use Rattle.relying_verdicts.specs.Asking.{IsInvalidOrOpen};
ghost use Rattle.store_sql.specs.Statements.{CommitsNothing};
ghost use Rattle.cli_steps.specs.Keeping.{AnswersWithFinding, AnswersWithListing, AnswersWithVerdict, IsNotFoundOrFrom, IsNotKept, Takes};
ghost use Rattle.cli_store.specs.Stored.{IsToldOverOpen, StaysIfClean, keeping_in};

use crate::stores::failed;
use cli_failures::Failure;
use cli_steps::Keeper;
use path_search::Search;
use path_verifiers::Verifier;
use relying::{Fault, Finding, FindingBudget, Query, Verdict, find_over, verdict_of};
use relying_agreement::verdict_laws;
use sqlite::{Error, ErrorCode};
use sqlite_disk::Disk;
use statements_facts::{Counts, Facts};
use std::alloc::Global;
use store::Store;
use store_listing::{Listing, held_laws, read_listing};
use store_sql::StoreFault;

/// A store that keeps a session's statements.
pub struct StoreKeeper<D: Disk> {
    pub store: Store<D>,
}

impl<D: Disk + Drop> Drop for StoreKeeper<D> {
    fn drop(self) {
        let StoreKeeper { store: _ } = self;
    }
}

impl<D: Disk + Drop> StoreKeeper<D> {
    /// Gives the store back.
    pub fn into_store(self) -> Store<D>
        ensures { result ≡ self.store }
    {
        let StoreKeeper { store } = self;
        store
    }
}

// Prepares a statement that asks nothing of the database. That succeeds only over an open connection.
fn probe<D: Disk + Drop>(store: &mut Store<D>) -> Result<(), Error>
    ensures stays { StaysIfClean (file_state store.old.conn) (file_state store.new.conn) }
    ensures survives { CommitsNothing (file_state store.old.conn) (file_state store.new.conn) }
    ensures open { HasCleanDisk (file_state store.new.conn)
        → OnOk result (IsTrue (file_state store.new.conn).is_open) }
    ensures shut { HasCleanDisk (file_state store.new.conn)
        → result ≡ Err (Error.SqliteFailure ErrorCode.Closed)
        → IsTrue (file_state store.new.conn).is_open → ⊥ }
{
    let _before = store.conn.is_autocommit();
    match store.conn.prepare("SELECT 1") {
        Ok(_) => Ok(()),
        Err(error) => Err(error),
    }
}

// Whether the connection is not known to be shut.
fn is_open<D: Disk + Drop>(store: &mut Store<D>) -> bool
    ensures stays { StaysIfClean (file_state store.old.conn) (file_state store.new.conn) }
    ensures survives { CommitsNothing (file_state store.old.conn) (file_state store.new.conn) }
    ensures shut { HasCleanDisk (file_state store.new.conn)
        → result ≡ false → IsTrue (file_state store.new.conn).is_open → ⊥ }
{
    match probe(store) {
        Err(Error::SqliteFailure(ErrorCode::Closed)) => false,
        _ => true,
    }
}

// What a refusal of the database is for a session: never one of the tables.
fn refused<'a>(error: Error) -> Failure<'a>
    ensures { IsNotKept result }
{
    failed(Fault::Store(StoreFault::from(error)))
}

// Why the keeper does not answer. That the tables are no store's is believed only of an open connection.
fn failure_of<'a, D: Disk + Drop>(store: &mut Store<D>, fault: Fault) -> Failure<'a>
    ensures stays { StaysIfClean (file_state store.old.conn) (file_state store.new.conn) }
    ensures survives { CommitsNothing (file_state store.old.conn) (file_state store.new.conn) }
    ensures told { HasCleanDisk (file_state store.new.conn)
        → IsNotKept result ⊎ IsToldOverOpen (file_state store.new.conn) fault result }
{
    if fault != Fault::Store(StoreFault::Schema) {
        return failed(fault);
    }
    match probe(store) {
        Ok(()) => failed(fault),
        Err(error) => refused(error),
    }
}

// The store takes the facts.
fn take_into<'a, D: Disk + Drop>(
    store: &mut Store<D>,
    facts: &Facts<'_>,
) -> Result<Counts, Failure<'a>>
    ensures clean { HasCleanDisk (file_state store.new.conn)
        → HasCleanDisk (file_state store.old.conn) }
    ensures open { HasCleanDisk (file_state store.new.conn)
        → OnOk result (IsTrue (file_state store.new.conn).is_open) }
    ensures takes { HasCleanDisk (file_state store.new.conn)
        → Takes (keeping_in (file_state store.old.conn)) (keeping_in (file_state store.new.conn))
        (facts_in facts.now) result }
{
    match store.put(facts) {
        Ok(counts) => Ok(counts),
        Err(fault) => Err(failure_of(store, Fault::Store(fault))),
    }
}

// The verdict by what the store holds.
fn find_in<'a, D: Disk + Drop, V: Verifier>(
    store: &mut Store<D>,
    alloc: Global,
    verifier: &V,
    query: &Query<'_>,
) -> Result<Verdict, Failure<'a>>
    ensures clean { HasCleanDisk (file_state store.new.conn)
        → HasCleanDisk (file_state store.old.conn) }
    ensures open { HasCleanDisk (file_state store.new.conn)
        → IfOk result (IsInvalidOrOpen (V.accepts verifier.now) (seen_query query.now)
        (file_state store.old.conn).is_open) }
    ensures finds { HasCleanDisk (file_state store.new.conn)
        → AnswersWithVerdict (keeping_in (file_state store.old.conn))
        (keeping_in (file_state store.new.conn))
        (V.accepts verifier.now) (seen_query query.now) result }
{
    verdict_laws();
    match verdict_of(alloc, verifier, &mut store.conn, query) {
        Ok(verdict) => Ok(verdict),
        Err(fault) => Err(failure_of(store, fault)),
    }
}

// What is found by what the store holds.
fn search_in<'a, D: Disk + Drop, V: Verifier>(
    store: &mut Store<D>,
    alloc: Global,
    verifier: &V,
    search: &Search<'_, '_>,
    budget: FindingBudget,
) -> Result<Finding, Failure<'a>>
    ensures clean { HasCleanDisk (file_state store.new.conn)
        → HasCleanDisk (file_state store.old.conn) }
    ensures open { HasCleanDisk (file_state store.new.conn)
        → IfOk result (IsNotFoundOrFrom (IsTrue (file_state store.old.conn).is_open)) }
    ensures finds { HasCleanDisk (file_state store.new.conn)
        → AnswersWithFinding (keeping_in (file_state store.old.conn))
        (keeping_in (file_state store.new.conn))
        (V.accepts verifier.now) (seen_search search.now) budget result }
{
    match find_over(alloc, verifier, &mut store.conn, search, budget) {
        Ok(finding) => Ok(finding),
        Err(fault) => Err(failure_of(store, fault)),
    }
}

// What the store holds, listed by an open connection.
fn list_in<'a, D: Disk + Drop>(store: &mut Store<D>, alloc: Global) -> Result<Listing, Failure<'a>>
    ensures clean { HasCleanDisk (file_state store.new.conn)
        → HasCleanDisk (file_state store.old.conn) }
    ensures open { HasCleanDisk (file_state store.new.conn)
        → OnOk result (IsTrue (file_state store.old.conn).is_open) }
    ensures lists { HasCleanDisk (file_state store.new.conn)
        → AnswersWithListing (keeping_in (file_state store.old.conn))
        (keeping_in (file_state store.new.conn)) result }
{
    held_laws();
    match read_listing(alloc, &mut store.conn) {
        Ok(all) => match probe(store) {
            Ok(()) => Ok(all),
            Err(error) => Err(refused(error)),
        },
        Err(fault) => Err(failure_of(store, Fault::Store(fault))),
    }
}

impl<D: Disk + Drop> Keeper for StoreKeeper<D> {
    ghost use Rattle.std.specs.Prelude.{IsTrue};
    ghost use Rattle.sqlite.specs.Files.{file_state};
    ghost use Rattle.sqlite.specs.State.{HasCleanDisk};
    ghost use Rattle.cli_store.specs.Stored.{keeping_in};

    ghost keeps = { λ keeper. keeping_in (file_state keeper.store.conn) };

    ghost is_clean = { λ keeper. HasCleanDisk (file_state keeper.store.conn) };

    ghost is_open = { λ keeper. IsTrue (file_state keeper.store.conn).is_open };

    fn take<'a>(&mut self, facts: &Facts<'_>) -> Result<Counts, Failure<'a>> {
        take_into(&mut self.store, facts)
    }

    fn verdict<'a, V: Verifier>(
        &mut self,
        alloc: Global,
        verifier: &V,
        query: &Query<'_>,
    ) -> Result<Verdict, Failure<'a>> {
        find_in(&mut self.store, alloc, verifier, query)
    }

    fn find<'a, V: Verifier>(
        &mut self,
        alloc: Global,
        verifier: &V,
        search: &Search<'_, '_>,
        budget: FindingBudget,
    ) -> Result<Finding, Failure<'a>> {
        search_in(&mut self.store, alloc, verifier, search, budget)
    }

    fn list<'a>(&mut self, alloc: Global) -> Result<Listing, Failure<'a>> {
        list_in(&mut self.store, alloc)
    }

    fn may_answer(&mut self) -> bool {
        is_open(&mut self.store)
    }
}
