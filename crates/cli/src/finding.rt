//! Paths that are found to a certificate, with their verdicts.
ghost use Rattle.std.specs.Prelude.{◌≡◌, IfErr, IfOk};
ghost use Rattle.std.specs.Io.KnownBytes.{Appends};
ghost use Rattle.cli_failures.specs.declared.failure.Failure.TheVariants.{NoMemory};
ghost use Rattle.cli_failures.specs.Report.{UnlessLate};
ghost use Rattle.cli_steps.specs.Found.{found_text};
ghost use Rattle.cli_words.specs.SearchTexts.{seen_search_words};
ghost use Rattle.cli.specs.Host.{host};
ghost use Rattle.cli.specs.Searched.{FailsToFind, IsFailureOfFinding, IsSearched};

use crate::at_path::AtPath;
use cli_answers::{SearchVerdict, write_front};
use cli_failures::{Failure, Source};
use cli_steps::{FoundPath, find_believing};
use cli_store::Stores;
use cli_words::SearchWords;
use sqlite_disk::Disk;
use std::alloc::Global;
use std::io::Write;
use std::marker::PhantomData;
use store::Store;

// The path that the words ask for.
fn find_path<'a, D: Disk + Drop, S: Source + Stores<Store<D>>>(
    source: &S,
    alloc: Global,
    store: &'a str,
    verdicts: &'a str,
    words: &SearchWords<'a>,
) -> Result<FoundPath<'a>, Failure<'a>>
    ensures found { IfOk result (IsSearched (host S.holds S.places source.now)
        store.entry.now verdicts.entry.now (seen_search_words words.now)) }
    ensures fails { IfErr result (IsFailureOfFinding (host S.holds S.places source.now)
        store.entry.now verdicts.entry.now (seen_search_words words.now)) }
{
    let mut store: AtPath<'a, '_, D, S> = AtPath {
        source,
        path: store,
        disk: PhantomData,
    };
    find_believing(&mut store, source, alloc, verdicts, words)
}

// The lines of the answer, in memory, so that nothing else is written.
fn lines_of<'a>(alloc: Global, answer: &FoundPath<'_>) -> Result<Vec<u8>, Failure<'a>>
    ensures lines { IfOk result (λ text. text.items ≡ found_text answer.now) }
    ensures fails { IfErr result (λ failure. failure ≡ NoMemory) }
{
    let mut text = Vec::new(alloc);
    match answer.tell(&mut text) {
        Ok(()) => Ok(text),
        Err(_) => Err(Failure::NoMemory),
    }
}

/// Writes the first valid path to the certificate that the words name, of which the store holds that it is valid (RFC 5280, 6; RFC 6960,
/// 3.2), a line for each certificate; or else the first path that meets the conditions of RFC 5280, 6.1; and then its verdict, or that
/// there is none.
pub fn find<'a, D: Disk + Drop, S: Source + Stores<Store<D>>, O: Write>(
    source: &S,
    alloc: Global,
    store: &'a str,
    verdicts: &'a str,
    words: &SearchWords<'a>,
    out: &mut O,
) -> Result<SearchVerdict, Failure<'a>>
    ensures found { IfOk result (λ verdict. (answer : FoundPath) × (answer.verdict ≡ verdict)
        × IsSearched (host S.holds S.places source.now)
        store.entry.now verdicts.entry.now (seen_search_words words.now) answer
        × Appends (O.contents out.old) (O.contents out.new) (found_text answer)) }
    ensures fails { IfErr result (FailsToFind (host S.holds S.places source.now)
        store.entry.now verdicts.entry.now (seen_search_words words.now)
        (O.contents out.old) (O.contents out.new)) }
    ensures quiet { IfErr result (λ failure. UnlessLate failure (out.new ≡ out.old)) }
{
    let answer = find_path(source, alloc, store, verdicts, words)?;
    let text = lines_of(alloc, &answer)?;
    match write_front(text.as_slice(), out) {
        Ok(()) => Ok(answer.verdict),
        Err(_) => Err(Failure::Unwritable),
    }
}
