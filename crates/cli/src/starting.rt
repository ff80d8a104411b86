//! A run over the system's files, with what the words in front of the command ask of it.
ghost use Rattle.std.specs.Prelude.{◌≡◌, ◌⊎◌, ◌++◌, IfOk};
ghost use Rattle.cli.specs.Ended.{AnswersByStatus, AnswersCommand, EndedAs, FailsByStatus, FailsCommand, IsAnswering, IsFailing};
ghost use Rattle.cli.specs.OnMachine.{host_on};
ghost use Rattle.cli.specs.Outcome.{IsDone, IsLineFailure};
ghost use Rattle.cli.specs.Streams.{streams};
ghost use Rattle.sqlite_wal.specs.Files.{image_at};

use crate::execution::{answer_of_clap, finish, run};
use cli_answers::FAILED;
use cli_failures::{Failure, hint_after_delivery, hint_to};
use cli_store::Machine;
use cli_words::{Line, RunOptions, RunWords, command_of, run_options};
use sqlite_disk::Start;
use statements_facts::Profile;
use std::alloc::{AllocError, Global};
use std::io::{Read, Write};

// The program's name, where the system gives one, and the words of the command.
fn words_of<'a>(
    alloc: Global,
    name: &[&'a str],
    command: &[&'a str],
) -> Result<Vec<&'a str>, AllocError>
    ensures { IfOk result (λ words. words.items ≡ name.now ++ command.now) }
{
    let mut words = Vec::from_slice(alloc, name)?;
    words.extend_from_slice(command)?;
    Ok(words)
}

// What to do about the failure, behind the line that reports it; or what to know about a list that was delivered. That standard error
// failed is told nowhere.
fn give_hint<E: Write>(
    rt: &HostRuntime,
    profile: Profile,
    line: &Line<'_>,
    outcome: Result<u8, Failure<'_>>,
    err: &mut E,
) {
    let _ = match (line, outcome) {
        (_, Err(failure)) => hint_to(rt, profile, line, &failure, err),
        (Line::Deliver { file, .. }, Ok(_)) => hint_after_delivery(rt, profile, file, err),
        (_, Ok(_)) => Ok(()),
    };
}

// The run of a line.
fn run_line<S: Start + Copy, I: Read, O: Write, E: Write>(
    machine: &Machine<'_, S>,
    alloc: Global,
    hints: bool,
    line: &Line<'_>,
    input: &mut I,
    out: &mut O,
    err: &mut E,
) -> u8
    ensures status { IsAnswering result ⊎ IsFailing result }
    ensures answered { IsAnswering result
        → IsDone (host_on (image_at S.Start) machine.now.profile) line.now
        (streams I.remaining input.old input.new O.contents out.old out.new) result }
    ensures failed { IsFailing result → EndedAs
        (IsLineFailure (host_on (image_at S.Start) machine.now.profile) line.now
        (streams I.remaining input.old input.new O.contents out.old out.new))
        (out.new ≡ out.old) result }
{
    let outcome = run(machine, alloc, line, input, out);
    let status = finish(outcome, err).status;
    if hints {
        give_hint(machine.rt, machine.profile, line, outcome, err);
    }
    status
}

// The run of the words, which begin with the program's name.
fn run_words<S: Start + Copy, I: Read, O: Write, E: Write>(
    rt: &HostRuntime,
    start: S,
    alloc: Global,
    options: RunOptions,
    words: &[&str],
    input: &mut I,
    out: &mut O,
    err: &mut E,
) -> u8
    ensures status { IsAnswering result ⊎ IsFailing result }
    ensures answered { AnswersByStatus (host_on (image_at S.Start) options.profile) words.now
        I.remaining input.old input.new O.contents out.old out.new result }
    ensures failed { FailsByStatus (host_on (image_at S.Start) options.profile) words.now
        I.remaining input.old input.new O.contents out.old out.new result }
{
    let machine = Machine {
        rt,
        wait: options.wait,
        profile: options.profile,
        start,
    };
    match command_of(alloc, words) {
        Ok(line) => run_line(&machine, alloc, options.hints, &line, input, out, err),
        Err(error) => answer_of_clap(&error, out, err).status,
    }
}

/// Does what the words ask for, of which the first is the program's name, as `execute` does, over the system's files. Behind the name may
/// stand options for the whole run (`cli_words::run_options`): a store that another process has open is waited for, `--profile` says the
/// profile of the run's stores, and with `--hints` a failure is followed by a line that says what to do. `S` stands for what the files of a store hold as they are opened; `main` names
/// `AnyFiles`.
pub fn start<S: Start + Copy, I: Read, O: Write, E: Write>(
    rt: &HostRuntime,
    first: S,
    alloc: Global,
    words: &[&str],
    input: &mut I,
    out: &mut O,
    err: &mut E,
) -> u8
    ensures status { IsAnswering result ⊎ IsFailing result }
    ensures answered { AnswersCommand (host_on (image_at S.Start)) words.now
        I.remaining input.old input.new O.contents out.old out.new result }
    ensures failed { FailsCommand (host_on (image_at S.Start)) words.now
        I.remaining input.old input.new O.contents out.old out.new result }
{
    let (name, behind) = words.split_at(words.len().min(1));
    let RunWords { options, words } = run_options(behind);
    match words_of(alloc, name, words) {
        Ok(command) => run_words(
            rt,
            first,
            alloc,
            options,
            command.as_slice(),
            input,
            out,
            err,
        ),
        Err(_) => {
            let _ = Failure::NoMemory.report(err);
            FAILED
        }
    }
}
