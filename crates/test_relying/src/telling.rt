//! Relying parties, and what reaches them. `None` is answered where there is no memory.

use relying::{DeliverAnswer, Event, Node};
use sqlite::{Connection, Files, Options};
use sqlite_disk::{Disk, Memory};
use std::alloc::Global;
use store::Store;
use vectors::{ToyVerifier, certificate, revocation_list};
use vectors_ocsp::ocsp_response;

pub type Party = Node<ToyVerifier, Memory>;

/// The issuer's certificate, the list or response, and the certificates that come with a response; or `None`, for a restart.
pub type Told = Option<(&'static str, &'static str, &'static [&'static str])>;

fn made(alloc: Global) -> Option<Store<Memory>> {
    let files = Files {
        log: Memory::new(alloc),
        db: Memory::new(alloc),
    };
    match Connection::open_files(alloc, files, Options::new(7)) {
        Ok(conn) => Store::create(conn).ok(),
        Err(_) => None,
    }
}

/// A party that holds nothing.
fn party(alloc: Global) -> Option<Party> {
    Some(Node::new(ToyVerifier, made(alloc)?))
}

fn statement_of(alloc: Global, text: &str, certificates: &[&str]) -> Option<Vec<u8>> {
    if text.starts_with("ocsp") {
        ocsp_response(alloc, text, certificates).ok()
    } else {
        revocation_list(alloc, text).ok()
    }
}

/// The octets of a certificate and a statement; nothing for a restart.
pub fn pair_of(alloc: Global, told: &Told) -> Option<(Vec<u8>, Vec<u8>)> {
    let Some((issuer, text, certificates)) = *told else {
        return Some((Vec::new(alloc), Vec::new(alloc)));
    };
    let issuer = certificate(alloc, issuer).ok()?;
    let statement = statement_of(alloc, text, certificates)?;
    Some((issuer, statement))
}

/// The octets of all of it.
pub fn pairs_of(alloc: Global, told: &[Told]) -> Option<Vec<(Vec<u8>, Vec<u8>)>> {
    let mut all = Vec::new(alloc);
    for it in told {
        all.push(pair_of(alloc, it)?).ok()?;
    }
    Some(all)
}

/// The events that they make.
pub fn events_of<'a>(alloc: Global, pairs: &'a [(Vec<u8>, Vec<u8>)]) -> Option<Vec<Event<'a>>> {
    let mut events = Vec::new(alloc);
    for (issuer, statement) in pairs {
        let event = if issuer.is_empty() {
            Event::Restart
        } else {
            Event::Deliver(issuer, statement)
        };
        events.push(event).ok()?;
    }
    Some(events)
}

/// A party after all of it, and its answers.
pub fn after(alloc: Global, told: &[Told]) -> Option<(Party, Vec<DeliverAnswer>)> {
    let pairs = pairs_of(alloc, told)?;
    let events = events_of(alloc, &pairs)?;
    party(alloc)?.run(alloc, &events).ok()
}

/// What is asked of a party, which answered the deliveries so.
pub trait Question {
    fn is_answered<D: Disk + Drop>(
        &self,
        alloc: Global,
        party: &mut Node<ToyVerifier, D>,
        answers: &[DeliverAnswer],
    ) -> bool;
}

/// The answer of a party to which all of it was told; `None` where there was no memory for that, or the run stopped.
pub fn asked<Q: Question>(alloc: Global, told: &[Told], question: &Q) -> Option<bool> {
    let pairs = pairs_of(alloc, told)?;
    let events = events_of(alloc, &pairs)?;
    let (mut party, answers) = party(alloc)?.run(alloc, &events).ok()?;
    Some(question.is_answered(alloc, &mut party, &answers))
}
