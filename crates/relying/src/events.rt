//! What reaches a relying party, one event after the other.

ghost use Rattle.std.specs.Prelude.{◌≡◌, ◌≤◌, ◌<◌, ◌+◌, IfErr, IfOk, vec_capacity, vec_len};
ghost use Rattle.sqlite.specs.State.{HasCleanDisk};
ghost use Rattle.relying_agreement.specs.Run.{Event as Happened};
ghost use Rattle.relying.specs.Run.{AddsAnswer, HasHappened, seen_event};
ghost use Rattle.relying.specs.View.{stored};
ghost use Rattle.store.specs.Opens.{FailsToReopen, ReopensForCause};
ghost use Rattle.store_adoption.specs.Creates.{IsSettled};

use crate::fault::DeliverFault;
use crate::node::Node;
use crate::resting::at_rest;
use path_verifiers::Verifier;
use sqlite_disk::Disk;
use statements_facts::Counts;
use std::alloc::Global;
use store::ReopenFault;

/// An event that reaches a relying party.
#[derive(Clone, Copy, Debug, PartialEq, Eq)]
pub enum Event<'a> {
    /// A statement is delivered, with the certificate of the issuer that it is about, both in DER: `Deliver(issuer, statement)`.
    Deliver(&'a [u8], &'a [u8]),
    /// The store's files are closed and opened again.
    Restart,
}

/// The answer to a delivery: how its facts were counted, or why none was taken.
pub type DeliverAnswer = Result<Counts, DeliverFault>;

/// A delivery. Its answer is added to the answers, for which there is room.
fn take_delivery<V: Verifier + Drop, D: Disk + Drop>(
    node: &mut Node<V, D>,
    alloc: Global,
    issuer: &[u8],
    statement: &[u8],
    answers: &mut Vec<DeliverAnswer>,
)
    requires room { vec_len answers.old < vec_capacity answers.old }
    ensures verifier { node.new.verifier ≡ node.old.verifier }
    ensures profile { node.new.store.profile ≡ node.old.store.profile }
    ensures clean { HasCleanDisk (stored node.new) → HasCleanDisk (stored node.old) }
    ensures added { AddsAnswer node.old.store.profile (V.accepts node.old.verifier)
        (Happened.Deliver issuer.now statement.now) answers.old.items answers.new.items }
    ensures happens { HasCleanDisk (stored node.new)
        → HasHappened node.old.store.profile (V.accepts node.old.verifier)
        (Happened.Deliver issuer.now statement.now) answers.old.items answers.new.items
        (stored node.old) (stored node.new) }
    ensures capacity { vec_capacity answers.old ≤ vec_capacity answers.new }
    ensures len { vec_len answers.new ≡ vec_len answers.old + 1 }
{
    let answer = node.deliver(alloc, issuer, statement);
    let Ok(()) = answers.push(answer) else {
        unreachable!()
    };
}

/// One event.
pub(crate) fn take_event<V: Verifier + Drop, D: Disk + Drop>(
    node: Node<V, D>,
    alloc: Global,
    event: &Event<'_>,
    answers: &mut Vec<DeliverAnswer>,
) -> Result<Node<V, D>, ReopenFault<D>>
    requires room { vec_len answers.old < vec_capacity answers.old }
    ensures verifier { IfOk result (λ next. next.verifier ≡ node.verifier) }
    ensures profile { IfOk result (λ next. next.store.profile ≡ node.store.profile) }
    ensures clean { IfOk result (λ next. HasCleanDisk (stored next) → HasCleanDisk (stored node)) }
    ensures added { IfOk result (λ next. AddsAnswer node.store.profile (V.accepts node.verifier)
        (seen_event event.now) answers.old.items answers.new.items) }
    ensures happens { IfOk result (λ next. HasCleanDisk (stored next)
        → HasHappened node.store.profile (V.accepts node.verifier) (seen_event event.now)
        answers.old.items answers.new.items (stored node) (stored next)) }
    ensures settled { IsSettled (stored node) }
    ensures restarts { IfErr result (λ fault. seen_event event.now ≡ Happened.Restart) }
    ensures same { IfErr result (λ fault. answers.new.items ≡ answers.old.items) }
    ensures fails { IfErr result (FailsToReopen node.store.conn) }
    ensures cause { IfErr result (ReopensForCause node.store.conn) }
    ensures capacity { vec_capacity answers.old ≤ vec_capacity answers.new }
    ensures len { vec_len answers.new ≤ vec_len answers.old + 1 }
{
    at_rest(&node.store.conn);
    match event {
        Event::Deliver(issuer, statement) => {
            let mut node = node;
            take_delivery(&mut node, alloc, issuer, statement, answers);
            Ok(node)
        }
        Event::Restart => node.restart(alloc),
    }
}
