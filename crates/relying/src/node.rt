//! A relying party.

ghost use Rattle.std.specs.Prelude.{◌≡◌, IfErr, IfOk};
ghost use Rattle.store_sql.specs.Statements.{IsDurable, CommitsNothing};
ghost use Rattle.store_adoption.specs.Creates.{IsSettled};
ghost use Rattle.relying_agreement.specs.Verdict.{IsVerdict};
ghost use Rattle.path_issuers.specs.View.{seen_search};
ghost use Rattle.relying_search.specs.Finding.{FindsHolding};
ghost use Rattle.relying.specs.Asking.{AnswersOnlyIfOpen, FindsOnlyIfOpen, Looks, LooksForCause};
ghost use Rattle.relying.specs.Delivery.{AnswersDelivery, DeliversForCause, IsAnswerTo, MayCommitDelivery};
ghost use Rattle.relying.specs.Restart.{HasRestarted};
ghost use Rattle.relying.specs.View.{stored};
ghost use Rattle.path.specs.Reading.{seen_query};
ghost use Rattle.relying_verdicts.specs.Asking.{IsFaultOfValidPath};
ghost use Rattle.relying_verdicts.specs.Looking.{IsFaultOfValidCandidate};
ghost use Rattle.store.specs.Adopts.{HasStoreOn};
ghost use Rattle.store.specs.Opens.{FailsToReopen, ReopensForCause};
ghost use Rattle.store_taking.specs.Delivery.{AllOrNothing, PutsFacts};
ghost use Rattle.store_taking.specs.Room.{PutsForCause};

use crate::delivering::read_statement_under;
use crate::fault::DeliverFault;
use crate::finding::find_over;
use crate::resting::at_rest;
use crate::verdicts::verdict_of;
use path_search::Search;
use path_verifiers::Verifier;
use relying_search::{Finding, FindingBudget};
use relying_verdicts::{Fault, Query, Verdict};
use sqlite_disk::Disk;
use statements_facts::{Counts, Facts};
use std::alloc::Global;
use store::{ReopenFault, Store};
use store_sql::StoreFault;

/// A relying party: a verifier of signatures, and a store of the newest statements.
pub struct Node<V: Verifier, D: Disk> {
    /// What judges signatures.
    pub verifier: V,
    /// What is held.
    pub store: Store<D>,
}

impl<V: Verifier + Drop, D: Disk + Drop> Drop for Node<V, D> {
    fn drop(self) {
        let Node {
            verifier: _,
            store: _,
        } = self;
    }
}

impl<V: Verifier + Drop, D: Disk + Drop> Node<V, D> {
    /// A party that judges by this verifier, and holds what the store holds.
    pub fn new(verifier: V, store: Store<D>) -> Node<V, D>
        ensures verifier { result.verifier ≡ verifier }
        ensures store { result.store ≡ store }
    {
        Node { verifier, store }
    }

    /// Gives the store back; it holds what the party held.
    pub fn into_store(self) -> Store<D>
        ensures { result ≡ self.store }
    {
        let Node { verifier: _, store } = self;
        store
    }

    /// Takes a statement, a list or a response, under the issuer whose certificate is `issuer`, both in DER, and counts its facts; then
    /// each slot holds the newest. It is `read_statement_under`, in the profile of the store, and then `take`. The first fault is answered:
    /// that of the issuer's certificate, else of the statement, else of the store; then what is held is as it was. Time is n log n in the
    /// octets, plus that of the store.
    pub fn deliver(
        &mut self,
        alloc: Global,
        issuer: &[u8],
        statement: &[u8],
    ) -> Result<Counts, DeliverFault>
        ensures verifier { self.new.verifier ≡ self.old.verifier }
        ensures profile { self.new.store.profile ≡ self.old.store.profile }
        ensures reason { IsAnswerTo self.old.store.profile (V.accepts self.old.verifier)
            issuer.now statement.now result }
        ensures answered { AnswersDelivery self.old.store.profile (V.accepts self.old.verifier)
            issuer.now statement.now (stored self.old) (stored self.new) result }
        ensures caused { DeliversForCause self.old.store.profile (V.accepts self.old.verifier)
            issuer.now statement.now (stored self.old) (stored self.new) result }
        ensures survives { MayCommitDelivery self.old.store.profile (V.accepts self.old.verifier)
            issuer.now statement.now (stored self.old) (stored self.new) result }
        ensures settled { IsSettled (stored self.new) }
        ensures durable { IsDurable (stored self.new) }
    {
        at_rest(&self.store.conn);
        let profile = self.store.profile;
        let facts = read_statement_under(alloc, profile, &self.verifier, issuer, statement)?;
        self.take(&facts).map_err(DeliverFault::Store)
    }

    /// Takes facts in one transaction: the second step of a delivery. They should be those of a statement that `read_statement_under` or
    /// `statements::genuine_under` found genuine for the verifier of this party and in the profile of its store, since `take` does not
    /// check them. After a fault what is held is as it was.
    pub fn take(&mut self, facts: &Facts<'_>) -> Result<Counts, StoreFault>
        ensures verifier { self.new.verifier ≡ self.old.verifier }
        ensures profile { self.new.store.profile ≡ self.old.store.profile }
        ensures takes { PutsFacts (stored self.old) (stored self.new) facts.now result }
        ensures caused { PutsForCause (stored self.old) (stored self.new) facts.now result }
        ensures survives { AllOrNothing (stored self.old) (stored self.new) facts.now }
        ensures settled { IsSettled (stored self.new) }
        ensures durable { IsDurable (stored self.new) }
    {
        let counts = self.store.put(facts);
        at_rest(&self.store.conn);
        counts
    }

    /// The verdict on a path by what is held, which does not change. The path is validated first, with the options of the question; the store
    /// is asked only if it meets the conditions of RFC 5280, 6.1: two lists and a response for each certificate, in one transaction.
    /// `Fault::Store` means that the store does not answer, `Fault::Memory` that there is no memory.
    pub fn verdict(&mut self, alloc: Global, query: &Query<'_>) -> Result<Verdict, Fault>
        ensures verifier { self.new.verifier ≡ self.old.verifier }
        ensures profile { self.new.store.profile ≡ self.old.store.profile }
        ensures looks { Looks (stored self.old) (stored self.new)
            (IsVerdict (V.accepts self.old.verifier) (seen_query query.now)) result }
        ensures caused { LooksForCause (stored self.old) (stored self.new) result }
        ensures open { AnswersOnlyIfOpen (V.accepts self.old.verifier) (seen_query query.now)
            (stored self.old) (stored self.new) result }
        ensures valid { IfErr result
            (IsFaultOfValidPath (V.accepts self.old.verifier) (seen_query query.now)) }
        ensures settled { IsSettled (stored self.new) }
        ensures durable { IsDurable (stored self.new) }
        ensures survives { CommitsNothing (stored self.old) (stored self.new) }
    {
        verdict_of(alloc, &self.verifier, &mut self.store.conn, query)
    }

    /// Searches for a path to the target, as `path_search::find` does, and asks for the verdict on each valid one by what is held, as
    /// `verdict` answers it, until one is `Valid`: that path is found. If none is, the first valid path is found, with its verdict. All
    /// look-ups are in one transaction; what is held does not change. The store is asked only if a path is valid.
    pub fn find(
        &mut self,
        alloc: Global,
        search: &Search<'_, '_>,
        budget: FindingBudget,
    ) -> Result<Finding, Fault>
        ensures verifier { self.new.verifier ≡ self.old.verifier }
        ensures profile { self.new.store.profile ≡ self.old.store.profile }
        ensures looks { Looks (stored self.old) (stored self.new)
            (FindsHolding (V.accepts self.old.verifier) (seen_search search.now) budget) result }
        ensures caused { LooksForCause (stored self.old) (stored self.new) result }
        ensures open { FindsOnlyIfOpen (V.accepts self.old.verifier) (seen_search search.now) budget
            (stored self.old) (stored self.new) result }
        ensures valid { IfErr result
            (IsFaultOfValidCandidate (V.accepts self.old.verifier) (seen_search search.now)) }
        ensures settled { IsSettled (stored self.new) }
        ensures durable { IsDurable (stored self.new) }
        ensures survives { CommitsNothing (stored self.old) (stored self.new) }
    {
        find_over(alloc, &self.verifier, &mut self.store.conn, search, budget)
    }

    /// Closes the store's files and takes them for a store again, which reads each row once. If that fails, what is left of the store
    /// comes back.
    pub fn restart(self, alloc: Global) -> Result<Node<V, D>, ReopenFault<D>>
        ensures verifier { IfOk result (λ node. node.verifier ≡ self.verifier) }
        ensures profile { IfOk result (λ node. node.store.profile ≡ self.store.profile) }
        ensures restarts { IfOk result (HasRestarted self) }
        ensures store { IfOk result (λ node. HasStoreOn node.store.conn) }
        ensures settled { IfOk result (λ node. IsSettled (stored node)) }
        ensures durable { IfOk result (λ node. IsDurable (stored node)) }
        ensures cause { IfErr result (ReopensForCause self.store.conn) }
        ensures fails { IfErr result (FailsToReopen self.store.conn) }
    {
        let Node { verifier, store } = self;
        let store = store.reopen(alloc)?;
        at_rest(&store.conn);
        Ok(Node { verifier, store })
    }
}
