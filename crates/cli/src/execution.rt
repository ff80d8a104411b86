//! One run of the program.
ghost use Rattle.std.specs.Prelude.{◌≡◌, ◌⊎◌, IfErr, IfOk, OnOk};
ghost use Rattle.std.specs.Io.KnownBytes.{Appends};
ghost use Rattle.clap.specs.Words.{kind_of};
ghost use Rattle.cli_failures.specs.Report.{UnlessLate, report_line, exit_status};
ghost use Rattle.cli.specs.Ended.{AnswersByStatus, FailsByStatus, FailsTelling, IsAnswering, IsFailing, IsUnexplained};
ghost use Rattle.cli.specs.Host.{host};
ghost use Rattle.cli.specs.Outcome.{IsDone, IsLineFailure, IsHelp};
ghost use Rattle.cli.specs.Streams.{FailsToWrite, WritesAll, streams};

use crate::{
    Delivery, SessionWords, StorePair, Stores, check, check_with_policies, compare,
    comparison_status, deliver, explain, find, list, search_status, session, verdict_status,
};
use clap::error::ErrorKind;
use cli_answers::{DONE, MISTAKEN, write_front};
use cli_failures::{Failure, Source};
use cli_showing::{prints, show, tree};
use cli_steps::search_prints;
use cli_words::{Line, command_of};
use sqlite_disk::Disk;
use std::alloc::Global;
use std::io;
use std::io::{Read, Write};
use store::Store;

/// How a run ended.
#[derive(Drop)]
pub struct Ended {
    /// The exit status.
    pub status: u8,
    /// Whether what there was to say on standard error was written.
    pub told: io::Result<()>,
}

/// Does what the words ask for, of which the first is the program's name, and answers the exit status: 0 if it was done, for a valid path
/// and for help; 1, 2 and 3 for a path that is invalid, revoked or unknown; 7 for two verdicts that differ; 4 for refused input, 5 for
/// mistaken words, 6 if a file, a store or a writer failed or there is no memory. Each of 4, 5 and 6 comes with a text on `err`. Only a
/// session reads from `input`.
pub fn execute<D: Disk + Drop, S: Source + Stores<Store<D>>, I: Read, O: Write, E: Write>(
    source: &S,
    alloc: Global,
    words: &[&str],
    input: &mut I,
    out: &mut O,
    err: &mut E,
) -> u8
    ensures status { IsAnswering result ⊎ IsFailing result }
    ensures answered { AnswersByStatus (host S.holds S.places source.now) words.now
        I.remaining input.old input.new O.contents out.old out.new result }
    ensures silent { IsAnswering result → err.new ≡ err.old }
    ensures failed { FailsByStatus (host S.holds S.places source.now) words.now
        I.remaining input.old input.new O.contents out.old out.new result }
{
    executed(source, alloc, words, input, out, err).status
}

/// The same, with whether standard error took the line of what failed.
pub fn executed<D: Disk + Drop, S: Source + Stores<Store<D>>, I: Read, O: Write, E: Write>(
    source: &S,
    alloc: Global,
    words: &[&str],
    input: &mut I,
    out: &mut O,
    err: &mut E,
) -> Ended
    ensures status { IsAnswering result.status ⊎ IsFailing result.status }
    ensures answered { AnswersByStatus (host S.holds S.places source.now) words.now
        I.remaining input.old input.new O.contents out.old out.new result.status }
    ensures silent { IsAnswering result.status → err.new ≡ err.old }
    ensures failed { FailsTelling (host S.holds S.places source.now) words.now
        I.remaining input.old input.new O.contents out.old out.new
        E.contents err.old err.new result }
{
    match command_of(alloc, words) {
        Ok(line) => finish(run(source, alloc, &line, input, out), err),
        Err(error) => answer_of_clap(&error, out, err),
    }
}

pub(crate) fn finish<E: Write>(outcome: Result<u8, Failure<'_>>, err: &mut E) -> Ended
    ensures done { IfOk outcome.entry (λ status.
        (result.status ≡ status) × (err.new ≡ err.old)) }
    ensures failed { IfErr outcome.entry (λ failure. (result.status ≡ exit_status failure)
        × OnOk result.told
        (Appends (E.contents err.old) (E.contents err.new) (report_line failure))) }
{
    match outcome {
        Ok(status) => Ended {
            status,
            told: Ok(()),
        },
        Err(failure) => Ended {
            status: failure.status(),
            told: failure.report(err),
        },
    }
}

pub(crate) fn run<'a, D: Disk + Drop, S: Source + Stores<Store<D>>, I: Read, O: Write>(
    source: &S,
    alloc: Global,
    line: &Line<'a>,
    input: &mut I,
    out: &mut O,
) -> Result<u8, Failure<'a>>
    ensures done { IfOk result (IsDone (host S.holds S.places source.now) line.now
        (streams I.remaining input.old input.new O.contents out.old out.new)) }
    ensures status { IfOk result IsAnswering }
    ensures fails { IfErr result
        (IsLineFailure (host S.holds S.places source.now) line.now
        (streams I.remaining input.old input.new O.contents out.old out.new)) }
    ensures quiet { IfErr result (λ failure. UnlessLate failure (out.new ≡ out.old)) }
{
    let status = answer(source, alloc, line, input, out)?;
    match out.flush() {
        Ok(()) => Ok(status),
        Err(_) => Err(Failure::Unwritable),
    }
}

fn answer<'a, D: Disk + Drop, S: Source + Stores<Store<D>>, I: Read, O: Write>(
    source: &S,
    alloc: Global,
    line: &Line<'a>,
    input: &mut I,
    out: &mut O,
) -> Result<u8, Failure<'a>>
    ensures done { IfOk result (IsDone (host S.holds S.places source.now) line.now
        (streams I.remaining input.old input.new O.contents out.old out.new)) }
    ensures status { IfOk result IsAnswering }
    ensures fails { IfErr result
        (IsLineFailure (host S.holds S.places source.now) line.now
        (streams I.remaining input.old input.new O.contents out.old out.new)) }
    ensures quiet { IfErr result (λ failure. UnlessLate failure (out.new ≡ out.old)) }
{
    match line {
        Line::Tree { file } => write_answer(tree(source, alloc, file), out)?,
        Line::Show {
            kind,
            with_details,
            file,
        } => write_answer(show(source, alloc, *kind, *with_details, file), out)?,
        Line::Prints {
            issuer,
            kind,
            with_parts,
            file,
        } => write_answer(prints(source, alloc, issuer, *kind, *with_parts, file), out)?,
        Line::SearchPrints {
            issuers,
            among,
            with_parts,
            file,
        } => {
            let text = search_prints(
                source,
                alloc,
                &[*issuers],
                among.as_slice(),
                *with_parts,
                file,
            );
            write_answer(text, out)?;
        }
        Line::Deliver {
            store,
            verdicts,
            issuer,
            file,
        } => {
            let words = Delivery {
                store: *store,
                verdicts: *verdicts,
                issuer: *issuer,
                file: *file,
            };
            deliver(source, alloc, words, out)?;
        }
        Line::Check {
            store,
            verdicts,
            query,
        } => {
            return Ok(verdict_status(check(source, alloc, store, verdicts, query, out)?));
        }
        Line::CheckWithPolicies {
            store,
            verdicts,
            query,
            policies,
        } => {
            let checked = check_with_policies(source, alloc, store, verdicts, query, policies, out);
            return Ok(verdict_status(checked?));
        }
        Line::Compare {
            store,
            other,
            verdicts,
            query,
        } => {
            let stores = StorePair {
                store: *store,
                other: *other,
            };
            return Ok(comparison_status(compare(source, alloc, stores, verdicts, query, out)?));
        }
        Line::Find {
            store,
            verdicts,
            search,
        } => {
            return Ok(search_status(find(source, alloc, store, verdicts, search, out)?));
        }
        Line::List { store, moment } => {
            return match list(source, alloc, store, *moment, out) {
                Ok(()) => Ok(DONE),
                Err(failure) => Err(failure),
            };
        }
        Line::Explain { words } => {
            return match explain(words.as_slice(), out) {
                Ok(()) => Ok(DONE),
                Err(failure) => Err(failure),
            };
        }
        Line::Session { store, verdicts } => {
            let words = SessionWords {
                store: *store,
                verdicts: *verdicts,
            };
            return match session(source, alloc, words, input, out) {
                Ok(()) => Ok(DONE),
                Err(failure) => Err(failure),
            };
        }
    }
    Ok(DONE)
}

// Writes the text, if there is one, or a front of it.
fn write_answer<'a, O: Write>(
    text: Result<Vec<u8>, Failure<'a>>,
    out: &mut O,
) -> Result<(), Failure<'a>>
    ensures done { OnOk result (WritesAll text.entry (O.contents out.old) (O.contents out.new)) }
    ensures fails { IfErr result
        (FailsToWrite text.entry (O.contents out.old) (O.contents out.new)) }
    ensures quiet { IfErr result (λ failure. UnlessLate failure (out.new ≡ out.old)) }
{
    let text = text?;
    match write_front(text.as_slice(), out) {
        Ok(()) => Ok(()),
        Err(_) => Err(Failure::Unwritable),
    }
}

// What clap answers in place of a line: help goes to standard output, what is wrong with the words to standard error.
pub(crate) fn answer_of_clap<O: Write, E: Write>(
    error: &clap::Error,
    out: &mut O,
    err: &mut E,
) -> Ended
    ensures help { (result.status ≡ 0) → IsHelp (kind_of error.now) × (err.new ≡ err.old) }
    ensures status { (result.status ≡ 0) ⊎ IsFailing result.status }
    ensures failed { IsFailing result.status → IsUnexplained (kind_of error.now) (out.new ≡ out.old)
        (λ line. OnOk result.told (Appends (E.contents err.old) (E.contents err.new) line))
        result.status }
{
    match error.kind() {
        ErrorKind::DisplayHelp | ErrorKind::DisplayVersion => match write_text(error, out) {
            Ok(()) => finish(Ok(DONE), err),
            Err(_) => finish(Err(Failure::Unwritable), err),
        },
        ErrorKind::OutOfMemory => finish(Err(Failure::NoMemory), err),
        _ => Ended {
            status: MISTAKEN,
            told: write_text(error, err),
        },
    }
}

fn write_text<W: Write>(error: &clap::Error, writer: &mut W) -> io::Result<()> {
    write!(writer, "{error}")?;
    writer.flush()
}
