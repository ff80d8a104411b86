//! Verdicts on paths.
ghost use Rattle.std.specs.Prelude.{◌≡◌, IfErr, IfOk};
ghost use Rattle.std.specs.Io.KnownBytes.{Appends};
ghost use Rattle.cli_answers.specs.AnswerText.{verdict_line};
ghost use Rattle.cli_failures.specs.Report.{UnlessLate};
ghost use Rattle.cli_words.specs.QueryTexts.{seen_words};
ghost use Rattle.cli.specs.Checked.{FailsToCheck, IsChecked, IsFailureOfCheck};
ghost use Rattle.cli.specs.Host.{host};

use crate::at_path::AtPath;
use crate::writing::write_verdict;
use cli_failures::{Failure, Source};
use cli_steps::ask_believing;
use cli_store::Stores;
use cli_words::QueryWords;
use relying_agreement::Verdict;
use sqlite_disk::Disk;
use std::alloc::Global;
use std::io::Write;
use std::marker::PhantomData;
use store::Store;

// The verdict that the words ask for.
fn check_path<'a, D: Disk + Drop, S: Source + Stores<Store<D>>>(
    source: &S,
    alloc: Global,
    store: &'a str,
    verdicts: &'a str,
    query: &QueryWords<'a>,
) -> Result<Verdict, Failure<'a>>
    ensures checked { IfOk result (IsChecked (host S.holds S.places source.now)
        store.entry.now verdicts.entry.now (seen_words query.now)) }
    ensures fails { IfErr result (IsFailureOfCheck (host S.holds S.places source.now)
        store.entry.now verdicts.entry.now (seen_words query.now)) }
{
    let mut store: AtPath<'a, '_, D, S> = AtPath {
        source,
        path: store,
        disk: PhantomData,
    };
    ask_believing(&mut store, source, alloc, verdicts, query)
}

/// Writes the verdict on the path that the words name, by the statements that the store holds (RFC 5280, 6; RFC 6960, 3.2).
pub fn check<'a, D: Disk + Drop, S: Source + Stores<Store<D>>, O: Write>(
    source: &S,
    alloc: Global,
    store: &'a str,
    verdicts: &'a str,
    query: &QueryWords<'a>,
    out: &mut O,
) -> Result<Verdict, Failure<'a>>
    ensures checked { IfOk result (IsChecked (host S.holds S.places source.now)
        store.entry.now verdicts.entry.now (seen_words query.now)) }
    ensures written { IfOk result (λ verdict.
        Appends (O.contents out.old) (O.contents out.new) (verdict_line verdict)) }
    ensures fails { IfErr result (FailsToCheck (host S.holds S.places source.now)
        store.entry.now verdicts.entry.now (seen_words query.now)
        (O.contents out.old) (O.contents out.new)) }
    ensures quiet { IfErr result (λ failure. UnlessLate failure (out.new ≡ out.old)) }
{
    let verdict = check_path(source, alloc, store, verdicts, query)?;
    match write_verdict(verdict, out) {
        Ok(()) => Ok(verdict),
        Err(_) => Err(Failure::Unwritable),
    }
}
