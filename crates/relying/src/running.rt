//! Runs of events.

ghost use Rattle.std.specs.Prelude.{◌≡◌, ◌≤◌, [], IfErr, IfOk, length, map, vec_capacity};
ghost use Rattle.sqlite.specs.State.{HasCleanDisk};
ghost use Rattle.store_adoption.specs.Creates.{IsSettled};
ghost use Rattle.store_sql.specs.Statements.{IsDurable};
ghost use Rattle.relying.specs.Leaving.{RunSurvives};
ghost use Rattle.relying.specs.Run.{AreAnswersTo, Ran, RunsAreRuns, seen_event};
ghost use Rattle.relying.specs.Stopping.{RunFails, RunStops, StopsAtRestart};
ghost use Rattle.relying.specs.View.{stored};

use crate::events::{DeliverAnswer, Event, take_event};
use crate::fault::RunFault;
use crate::node::Node;
use crate::resting::at_rest;
use path_verifiers::Verifier;
use sqlite_disk::Disk;
use std::alloc::Global;
use store::ReopenFault;

/// The events in order. There is room for the answers.
fn run_all<V: Verifier + Drop, D: Disk + Drop>(
    node: Node<V, D>,
    alloc: Global,
    events: &[Event<'_>],
    answers: &mut Vec<DeliverAnswer>,
) -> Result<Node<V, D>, (usize, ReopenFault<D>)>
    requires none { answers.old.items ≡ [] }
    requires room { length events.now ≤ vec_capacity answers.old }
    ensures verifier { IfOk result (λ last. last.verifier ≡ node.verifier) }
    ensures profile { IfOk result (λ last. last.store.profile ≡ node.store.profile) }
    ensures clean { IfOk result (λ last. HasCleanDisk (stored last) → HasCleanDisk (stored node)) }
    ensures answers { IfOk result (λ last.
        AreAnswersTo node.store.profile (V.accepts node.verifier)
        (map seen_event events.now) answers.new.items) }
    ensures ran { IfOk result (λ last. HasCleanDisk (stored last)
        → Ran node.store.profile (V.accepts node.verifier)
        (map seen_event events.now) answers.new.items (stored node) (stored last)) }
    ensures survives { IfOk result (λ last. RunSurvives node.store.profile (V.accepts node.verifier)
        (map seen_event events.now) answers.new.items (stored node) (stored last)) }
    ensures settled { IfOk result (λ last. IsSettled (stored last)) }
    ensures durable { IfOk result (λ last. IsDurable (stored last)) }
    ensures stops { IfErr result (λ stop. StopsAtRestart node.store.profile
        (V.accepts node.verifier) (map seen_event events.now) stop.0 answers.new.items
        (stored node) stop.1) }
{
    let mut node = node;
    for (index, event) in events.iter().enumerate() {
        match take_event(node, alloc, event, answers) {
            Ok(next) => node = next,
            Err(fault) => return Err((index, fault)),
        }
    }
    at_rest(&node.store.conn);
    Ok(node)
}

impl<V: Verifier + Drop, D: Disk + Drop> Node<V, D> {
    /// Takes the events in order. `answers` is emptied first, and then has the answers of the deliveries in order, also of those before a
    /// restart that fails. Room for one answer an event is taken first; if there is none, nothing is done and the party comes back
    /// (`RunFault::NoRoom`). A restart that fails ends the run, and what is left of the store comes back; what the deliveries left is
    /// still there.
    pub fn run_into(
        self,
        alloc: Global,
        events: &[Event<'_>],
        answers: &mut Vec<DeliverAnswer>,
    ) -> Result<Node<V, D>, RunFault<V, D>>
        ensures verifier { IfOk result (λ last. last.verifier ≡ self.verifier) }
        ensures profile { IfOk result (λ last. last.store.profile ≡ self.store.profile) }
        ensures clean { IfOk result (λ last.
            HasCleanDisk (stored last) → HasCleanDisk (stored self)) }
        ensures answers { IfOk result (λ last.
            AreAnswersTo self.store.profile (V.accepts self.verifier)
            (map seen_event events.now) answers.new.items) }
        ensures ran { IfOk result (λ last. HasCleanDisk (stored last)
            → Ran self.store.profile (V.accepts self.verifier)
            (map seen_event events.now) answers.new.items (stored self) (stored last)) }
        ensures survives { IfOk result (λ last.
            RunSurvives self.store.profile (V.accepts self.verifier)
            (map seen_event events.now) answers.new.items (stored self) (stored last)) }
        ensures settled { IfOk result (λ last. IsSettled (stored last)) }
        ensures durable { IfOk result (λ last. IsDurable (stored last)) }
        ensures stops { IfErr result (RunStops self.store.profile (V.accepts self.verifier) self
            (map seen_event events.now) answers.new.items) }
    {
        answers.clear();
        let Ok(()) = answers.try_reserve(events.len()) else {
            return Err(RunFault::NoRoom(self));
        };
        match run_all(self, alloc, events, answers) {
            Ok(node) => Ok(node),
            Err((done, fault)) => Err(RunFault::Restart(done, fault)),
        }
    }

    /// Takes the events in order, and answers the deliveries in order, as `run_into` does; if the run does not reach its end, the answers
    /// are dropped.
    pub fn run(
        self,
        alloc: Global,
        events: &[Event<'_>],
    ) -> Result<(Node<V, D>, Vec<DeliverAnswer>), RunFault<V, D>>
        ensures verifier { IfOk result (λ run. run.0.verifier ≡ self.verifier) }
        ensures profile { IfOk result (λ run. run.0.store.profile ≡ self.store.profile) }
        ensures clean { IfOk result (λ run.
            HasCleanDisk (stored run.0) → HasCleanDisk (stored self)) }
        ensures answers { IfOk result (λ run.
            AreAnswersTo self.store.profile (V.accepts self.verifier)
            (map seen_event events.now) run.1.items) }
        ensures ran { IfOk result (λ run. HasCleanDisk (stored run.0)
            → Ran self.store.profile (V.accepts self.verifier)
            (map seen_event events.now) run.1.items (stored self) (stored run.0)) }
        ensures survives { IfOk result (λ run.
            RunSurvives self.store.profile (V.accepts self.verifier)
            (map seen_event events.now) run.1.items (stored self) (stored run.0)) }
        ensures settled { IfOk result (λ run. IsSettled (stored run.0)) }
        ensures durable { IfOk result (λ run. IsDurable (stored run.0)) }
        ensures stops { IfErr result
            (RunFails self.store.profile (V.accepts self.verifier) self
            (map seen_event events.now)) }
    {
        let mut answers = Vec::new(alloc);
        match self.run_into(alloc, events, &mut answers) {
            Ok(node) => Ok((node, answers)),
            Err(fault) => Err(fault),
        }
    }
}

/// A run of events is a run in the sense of agreement.
pub fn run_laws()
    ensures { RunsAreRuns }
{}
