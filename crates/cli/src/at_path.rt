//! Stores at paths, which are opened when they are asked and closed behind the answer.
ghost use Rattle.std.specs.Prelude.{◌≡◌};
ghost use Rattle.statements_facts.specs.Fact.{facts_in};
ghost use Rattle.path.specs.Reading.{seen_query};
ghost use Rattle.path_issuers.specs.View.{seen_search};
ghost use Rattle.sqlite.specs.Files.{file_state};
ghost use Rattle.store_adoption.specs.Creates.{IsSettled};
ghost use Rattle.store_sql.specs.Statements.{IsDurable};
ghost use Rattle.cli_store.specs.Standing.{IsFound, IsFoundOrMade, IsOpenIfClean, seen_in};
ghost use Rattle.cli.specs.Checked.{ChecksAt, ComparesAt};
ghost use Rattle.cli.specs.Delivered.{TakesAt};
ghost use Rattle.cli.specs.Searched.{FindsAt};

use cli_failures::Failure;
use cli_steps::{AnswerQuery, AnswerSearch, TakeFacts};
use cli_store::{Stores, failed};
use path_search::Search;
use path_verifiers::Verifier;
use relying::{Fault, Node, Query, find_over, verdict_of};
use relying_agreement::{Comparison, Verdict};
use relying_search::{Finding, FindingBudget};
use sqlite_disk::Disk;
use statements_facts::{Counts, Facts};
use std::alloc::Global;
use std::marker::PhantomData;
use store::Store;

/// The store that is asked first, and the other.
#[derive(Clone, Copy, Debug, PartialEq, Eq)]
pub struct StorePair<'a> {
    pub store: &'a str,
    pub other: &'a str,
}

/// The store at a path. It is made if it is to take facts and no file is there.
#[derive(Clone, Copy)]
pub(crate) struct AtPath<'a, 's, D, S> {
    pub source: &'s S,
    pub path: &'a str,
    pub disk: PhantomData<D>,
}

/// The stores at two paths.
#[derive(Clone, Copy)]
pub(crate) struct AtPaths<'a, 's, D, S> {
    pub source: &'s S,
    pub stores: StorePair<'a>,
    pub disk: PhantomData<D>,
}

// The store takes the facts, and is closed.
fn take_in<'a, D: Disk + Drop, S: Stores<Store<D>>>(
    source: &S,
    path: &str,
    store: Store<D>,
    facts: &Facts<'_>,
) -> Result<Counts, Failure<'a>>
    requires open { IsOpenIfClean (file_state store.conn) }
    requires settled { IsSettled (file_state store.conn) }
    requires durable { IsDurable (file_state store.conn) }
    ensures { IsFoundOrMade (S.places source.now) path.now (seen_in store)
        → TakesAt (S.places source.now) path.now (facts_in facts.now)
        result }
{
    let mut store = store;
    let counts = store.put(facts);
    source.close_store(path, store);
    match counts {
        Ok(counts) => Ok(counts),
        Err(fault) => Err(failed(Fault::Store(fault))),
    }
}

// The store at the path takes the facts. If no file is there it is made.
fn take_at<'a, D: Disk + Drop, S: Stores<Store<D>>>(
    source: &S,
    path: &'a str,
    facts: &Facts<'_>,
) -> Result<Counts, Failure<'a>>
    ensures { TakesAt (S.places source.now) path.entry.now
        (facts_in facts.now) result }
{
    let store = source.open_or_make_store(path)?;
    take_in(source, path, store, facts)
}

/// The store is opened, or made, takes the facts, and is closed.
impl<'a, D: Disk + Drop, S: Stores<Store<D>>> TakeFacts<'a> for AtPath<'a, '_, D, S> {
    ghost use Rattle.cli.specs.Delivered.{TakesAt};

    ghost takes = { λ at _ facts result. TakesAt (S.places at.source.now) at.path.now facts result };

    fn take_facts(&mut self, facts: &Facts<'_>) -> Result<Counts, Failure<'a>> {
        take_at(self.source, self.path, facts)
    }
}

// The verdict by what the store holds, which is closed then.
fn check_in<'a, D: Disk + Drop, S: Stores<Store<D>>, V: Verifier>(
    source: &S,
    alloc: Global,
    path: &str,
    verifier: &V,
    store: Store<D>,
    query: &Query<'_>,
) -> Result<Verdict, Failure<'a>>
    requires open { IsOpenIfClean (file_state store.conn) }
    requires settled { IsSettled (file_state store.conn) }
    requires durable { IsDurable (file_state store.conn) }
    ensures { IsFound (S.places source.now) path.now (seen_in store)
        → ChecksAt (S.places source.now) path.now
        (V.accepts verifier.now) (seen_query query.now) result }
{
    let mut store = store;
    let verdict = verdict_of(alloc, verifier, &mut store.conn, query);
    source.close_store(path, store);
    match verdict {
        Ok(verdict) => Ok(verdict),
        Err(fault) => Err(failed(fault)),
    }
}

// The verdict by what the store at the path holds.
fn check_at<'a, D: Disk + Drop, S: Stores<Store<D>>, V: Verifier>(
    source: &S,
    alloc: Global,
    path: &'a str,
    verifier: &V,
    query: &Query<'_>,
) -> Result<Verdict, Failure<'a>>
    ensures { ChecksAt (S.places source.now) path.entry.now
        (V.accepts verifier.now) (seen_query query.now) result }
{
    let store = source.open_store(path)?;
    check_in(source, alloc, path, verifier, store, query)
}

/// The store is opened, asked, and closed.
impl<'a, D: Disk + Drop, S: Stores<Store<D>>> AnswerQuery<'a, Verdict> for AtPath<'a, '_, D, S> {
    ghost use Rattle.cli.specs.Checked.{ChecksAt};

    ghost answers = { λ at _ accepts query result. ChecksAt (S.places at.source.now) at.path.now accepts query result };

    fn answer<V: Verifier>(
        &mut self,
        alloc: Global,
        verifier: &V,
        query: &Query<'_>,
    ) -> Result<Verdict, Failure<'a>> {
        check_at(self.source, alloc, self.path, verifier, query)
    }
}

// What is found by what the store holds, which is closed then.
fn find_in<'a, D: Disk + Drop, S: Stores<Store<D>>, V: Verifier>(
    source: &S,
    alloc: Global,
    path: &str,
    verifier: &V,
    store: Store<D>,
    search: &Search<'_, '_>,
    budget: FindingBudget,
) -> Result<Finding, Failure<'a>>
    requires open { IsOpenIfClean (file_state store.conn) }
    requires settled { IsSettled (file_state store.conn) }
    requires durable { IsDurable (file_state store.conn) }
    ensures { IsFound (S.places source.now) path.now (seen_in store)
        → FindsAt (S.places source.now) path.now
        (V.accepts verifier.now) (seen_search search.now) budget result }
{
    let mut store = store;
    let finding = find_over(alloc, verifier, &mut store.conn, search, budget);
    source.close_store(path, store);
    match finding {
        Ok(finding) => Ok(finding),
        Err(fault) => Err(failed(fault)),
    }
}

// What is found by what the store at the path holds.
fn find_at<'a, D: Disk + Drop, S: Stores<Store<D>>, V: Verifier>(
    source: &S,
    alloc: Global,
    path: &'a str,
    verifier: &V,
    search: &Search<'_, '_>,
    budget: FindingBudget,
) -> Result<Finding, Failure<'a>>
    ensures { FindsAt (S.places source.now) path.entry.now
        (V.accepts verifier.now) (seen_search search.now) budget result }
{
    let store = source.open_store(path)?;
    find_in(source, alloc, path, verifier, store, search, budget)
}

/// The store is opened, asked, and closed.
impl<'a, D: Disk + Drop, S: Stores<Store<D>>> AnswerSearch<'a> for AtPath<'a, '_, D, S> {
    ghost use Rattle.cli.specs.Searched.{FindsAt};

    ghost finds = { λ at _ accepts s budget result. FindsAt (S.places at.source.now) at.path.now accepts s budget result };

    fn answer_search<V: Verifier>(
        &mut self,
        alloc: Global,
        verifier: &V,
        search: &Search<'_, '_>,
        budget: FindingBudget,
    ) -> Result<Finding, Failure<'a>> {
        find_at(self.source, alloc, self.path, verifier, search, budget)
    }
}

// The comparison of the verdicts by what two stores hold, which are closed then.
fn compare_in<'a, D: Disk + Drop, S: Stores<Store<D>>, V: Verifier>(
    source: &S,
    alloc: Global,
    stores: &StorePair<'_>,
    verifier: &V,
    store: Store<D>,
    beside: Store<D>,
    query: &Query<'_>,
) -> Result<Comparison, Failure<'a>>
    requires open { IsOpenIfClean (file_state store.conn) }
    requires settled { IsSettled (file_state store.conn) }
    requires durable { IsDurable (file_state store.conn) }
    requires other_open { IsOpenIfClean (file_state beside.conn) }
    requires other_settled { IsSettled (file_state beside.conn) }
    requires other_durable { IsDurable (file_state beside.conn) }
    ensures { IsFound (S.places source.now) stores.now.store.now (seen_in store)
        → IsFound (S.places source.now) stores.now.other.now (seen_in beside)
        → ComparesAt (S.places source.now) stores.now
        (V.accepts verifier.now) (seen_query query.now) result }
{
    let mut one = Node::new(verifier, store);
    let mut other = Node::new(verifier, beside);
    let comparison = relying::compare(alloc, &mut one, &mut other, query);
    source.close_store(stores.store, one.into_store());
    source.close_store(stores.other, other.into_store());
    match comparison {
        Ok(comparison) => Ok(comparison),
        Err(fault) => Err(failed(fault)),
    }
}

// The comparison of the verdicts by what the stores at two paths hold, of which the second is looked for when the first is open.
fn compare_at<'a, D: Disk + Drop, S: Stores<Store<D>>, V: Verifier>(
    source: &S,
    alloc: Global,
    stores: &StorePair<'a>,
    verifier: &V,
    query: &Query<'_>,
) -> Result<Comparison, Failure<'a>>
    ensures { ComparesAt (S.places source.now) stores.now
        (V.accepts verifier.now) (seen_query query.now) result }
{
    let store = source.open_store(stores.store)?;
    match source.open_store(stores.other) {
        Ok(beside) => compare_in(source, alloc, stores, verifier, store, beside, query),
        Err(failure) => {
            source.close_store(stores.store, store);
            Err(failure)
        }
    }
}

/// Both stores are opened, asked, and closed.
impl<'a, D: Disk + Drop, S: Stores<Store<D>>> AnswerQuery<'a, Comparison>
    for AtPaths<'a, '_, D, S> {
    ghost use Rattle.cli.specs.Checked.{ComparesAt};

    ghost answers = { λ at _ accepts query result. ComparesAt (S.places at.source.now) at.stores accepts query result };

    fn answer<V: Verifier>(
        &mut self,
        alloc: Global,
        verifier: &V,
        query: &Query<'_>,
    ) -> Result<Comparison, Failure<'a>> {
        compare_at(self.source, alloc, &self.stores, verifier, query)
    }
}
