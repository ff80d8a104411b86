//! Parties of a profile, and the lists that reach them. `None` is answered if there is no memory.

use path::Query;
use relying::{DeliverAnswer, Event, Fault, Node, Verdict};
use sqlite::{Connection, Files, Options};
use sqlite_disk::{Disk, Memory};
use statements_facts::Profile;
use std::alloc::Global;
use store::Store;
use vectors::{ListText, ToyVerifier, certificate, certificate_at, list_at};

/// 2025-06-15T00:00:00Z
const MIDDLE: i64 = 1_749_945_600;

/// A list of the authority R; or `None`, for a restart.
pub type Told = Option<ListText>;

/// The points of a certificate with the serial number 05, each with its names, and the verdict on it in the middle of 2025.
pub type Judged = (&'static [&'static [&'static str]], Verdict);

/// A store of the profile that holds nothing.
pub fn made(alloc: Global, profile: Profile) -> Option<Store<Memory>> {
    let files = Files {
        log: Memory::new(alloc),
        db: Memory::new(alloc),
    };
    match Connection::open_files(alloc, files, Options::new(7)) {
        Ok(conn) => Store::create_under(profile, conn).ok(),
        Err(_) => None,
    }
}

/// The octets of a list; none for a restart.
fn list_of(alloc: Global, told: &Told) -> Option<Vec<u8>> {
    match *told {
        None => Some(Vec::new(alloc)),
        Some(list) => list_at(alloc, list),
    }
}

/// The octets of all lists.
fn lists_of(alloc: Global, told: &[Told]) -> Option<Vec<Vec<u8>>> {
    let mut all = Vec::new(alloc);
    for it in told {
        all.push(list_of(alloc, it)?).ok()?;
    }
    Some(all)
}

/// The events that they make.
fn events_of<'a>(alloc: Global, issuer: &'a [u8], lists: &'a [Vec<u8>]) -> Option<Vec<Event<'a>>> {
    let mut events = Vec::new(alloc);
    for list in lists {
        let event = if list.is_empty() {
            Event::Restart
        } else {
            Event::Deliver(issuer, list)
        };
        events.push(event).ok()?;
    }
    Some(events)
}

/// What a party of the profile says of a certificate with these points.
fn verdict_at<D: Disk + Drop>(
    alloc: Global,
    profile: Profile,
    party: &mut Node<ToyVerifier, D>,
    points: &[&[&str]],
) -> Option<Result<Verdict, Fault>> {
    let anchor = certificate(alloc, "ca(R,R)").ok()?;
    let leaf = certificate_at(alloc, "ee(T,R)", points, "R")?;
    let options = path::Options { profile };
    match Query::read_with(alloc, &anchor, &[leaf.as_slice()], MIDDLE, None, options) {
        Ok(query) => Some(party.verdict(alloc, &query)),
        Err(_) => None,
    }
}

/// Whether the party says so of all of them.
fn says<D: Disk + Drop>(
    alloc: Global,
    profile: Profile,
    party: &mut Node<ToyVerifier, D>,
    judged: &[Judged],
) -> bool {
    for (points, verdict) in judged {
        if verdict_at(alloc, profile, party, points) != Some(Ok(*verdict)) {
            return false;
        }
    }
    true
}

/// The answers of a party of the profile to statements of the authority R, of which an empty one stands for a restart, and whether its
/// verdicts are these then.
pub fn delivered_and_asked(
    alloc: Global,
    profile: Profile,
    statements: &[Vec<u8>],
    judged: &[Judged],
) -> Option<(Vec<DeliverAnswer>, bool)> {
    let issuer = certificate(alloc, "ca(R,R)").ok()?;
    let events = events_of(alloc, &issuer, statements)?;
    let party = Node::new(ToyVerifier, made(alloc, profile)?);
    let (mut party, answers) = party.run(alloc, &events).ok()?;
    Some((answers, says(alloc, profile, &mut party, judged)))
}

/// The same of all that it was told.
pub fn told_and_asked(
    alloc: Global,
    profile: Profile,
    told: &[Told],
    judged: &[Judged],
) -> Option<(Vec<DeliverAnswer>, bool)> {
    let lists = lists_of(alloc, told)?;
    delivered_and_asked(alloc, profile, &lists, judged)
}
