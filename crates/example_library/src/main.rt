//! The first page of `x509` as a program: from octets to a verdict, a restart and a comparison, over stores in memory.
#![tactic(auto)]

mod digests;
mod failure;
mod files;

use digests::Digests;
use failure::Failure;
use files::Octets;
use std::alloc::Global;
use std::io::Write;
use std::process::ExitCode;
use x509::{
    Certificate, Connection, Files, Memory, Node, Options, Query, Store, compare, validate,
};

type Party = Node<Digests, Memory>;

/// The moment that is asked about: 2025-06-01T00:00:00Z.
const MOMENT: i64 = 1_748_736_000;

/// A party that holds nothing, over a store in memory.
fn new_party(alloc: Global) -> Result<Party, Failure> {
    let files = Files {
        log: Memory::new(alloc),
        db: Memory::new(alloc),
    };
    let made = match Connection::open_files(alloc, files, Options::new(0)) {
        Ok(conn) => Store::create(conn).ok(),
        Err(_) => None,
    };
    match made {
        Some(store) => Ok(Node::new(Digests, store)),
        None => Err(Failure::NoStore),
    }
}

/// Reads the certificates and validates the path alone: no statement is asked.
fn validate_path<W: Write>(alloc: Global, octets: &Octets, out: &mut W) -> Result<(), Failure> {
    let anchor = Certificate::read(alloc, &octets.root)?;
    let path = [
        Certificate::read(alloc, &octets.ca)?,
        Certificate::read(alloc, &octets.mail)?,
    ];
    let outcome = validate(alloc, &Digests, &anchor, &path, MOMENT, None)?;
    writeln!(out, "path {outcome:?}")?;
    Ok(())
}

fn deliver<W: Write>(
    alloc: Global,
    party: &mut Party,
    issuer: &[u8],
    statement: &[u8],
    out: &mut W,
) -> Result<(), Failure> {
    let counts = party.deliver(alloc, issuer, statement)?;
    writeln!(out, "stored {} kept {}", counts.stored, counts.kept)?;
    Ok(())
}

/// Asks for the verdict, and writes it behind the word.
fn ask<W: Write>(
    alloc: Global,
    party: &mut Party,
    query: &Query<'_>,
    when: &str,
    out: &mut W,
) -> Result<(), Failure> {
    let verdict = party.verdict(alloc, query)?;
    writeln!(out, "{when} {verdict:?}")?;
    Ok(())
}

/// Nothing is known of the certificates at first. The root's list is about the CA, and the CA's response is about the mail server.
fn learn<W: Write>(
    alloc: Global,
    party: &mut Party,
    octets: &Octets,
    query: &Query<'_>,
    out: &mut W,
) -> Result<(), Failure> {
    ask(alloc, party, query, "at first", out)?;
    deliver(alloc, party, &octets.root, &octets.root_list, out)?;
    deliver(alloc, party, &octets.ca, &octets.response, out)?;
    ask(alloc, party, query, "then", out)
}

/// What reaches the second party: the CA's list, which revokes, and what the first has, in another order and once more.
fn deliver_to_other<W: Write>(
    alloc: Global,
    other: &mut Party,
    octets: &Octets,
    out: &mut W,
) -> Result<(), Failure> {
    deliver(alloc, other, &octets.ca, &octets.response, out)?;
    deliver(alloc, other, &octets.ca, &octets.ca_list, out)?;
    deliver(alloc, other, &octets.root, &octets.root_list, out)?;
    deliver(alloc, other, &octets.root, &octets.root_list, out)
}

fn compare_parties<W: Write>(
    alloc: Global,
    party: &mut Party,
    other: &mut Party,
    query: &Query<'_>,
    out: &mut W,
) -> Result<(), Failure> {
    let comparison = compare(alloc, party, other, query)?;
    writeln!(out, "compared {comparison:?}")?;
    Ok(())
}

/// Two parties differ, and agree once both hold the same.
fn agree<W: Write>(
    alloc: Global,
    party: &mut Party,
    other: &mut Party,
    octets: &Octets,
    query: &Query<'_>,
    out: &mut W,
) -> Result<(), Failure> {
    deliver_to_other(alloc, other, octets, out)?;
    compare_parties(alloc, party, other, query, out)?;
    deliver(alloc, party, &octets.ca, &octets.ca_list, out)?;
    compare_parties(alloc, party, other, query, out)
}

/// A party learns, and what it holds survives a restart.
fn learn_and_restart<W: Write>(
    alloc: Global,
    octets: &Octets,
    query: &Query<'_>,
    out: &mut W,
) -> Result<Party, Failure> {
    let mut party = new_party(alloc)?;
    learn(alloc, &mut party, octets, query, out)?;
    party.restart(alloc).ok().ok_or(Failure::NoStore)
}

fn run<W: Write>(alloc: Global, octets: &Octets, out: &mut W) -> Result<(), Failure> {
    validate_path(alloc, octets, out)?;
    let path = [octets.ca.as_slice(), octets.mail.as_slice()];
    let query = Query::read(alloc, &octets.root, &path, MOMENT, None)?;
    let mut party = learn_and_restart(alloc, octets, &query, out)?;
    ask(alloc, &mut party, &query, "restarted", out)?;
    let mut other = new_party(alloc)?;
    agree(alloc, &mut party, &mut other, octets, &query, out)
}

fn main(rt: HostRuntime) -> ExitCode {
    let done = match Octets::read(&rt) {
        Ok(octets) => run(rt.alloc(), &octets, &mut rt.stdout()),
        Err(failure) => Err(failure),
    };
    match done {
        Ok(()) => ExitCode::SUCCESS,
        Err(failure) => {
            let _ = writeln!(rt.stderr(), "example_library: {failure}");
            ExitCode::FAILURE
        }
    }
}
