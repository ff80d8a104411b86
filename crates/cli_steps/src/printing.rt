//! Fingerprints of what a verifier is asked.
ghost use Rattle.std.specs.Prelude.{[], ◌∷◌, IfErr, IfOk};
ghost use Rattle.cli_requests.specs.Requests.{if_given, seen_files};
ghost use Rattle.cli_steps.specs.SearchPrints.{AreSearchPrints, IsFailureOfSearchPrints};
ghost use Rattle.cli_steps.specs.Steps.{ShowsPrints, ShowsSearchPrints};

use crate::answer::SessionAnswer;
use crate::asking::search_prints;
use cli_failures::{Failure, Source};
use cli_requests::SearchFiles;
use cli_showing::prints;
use cli_words::Kind;
use std::alloc::Global;

/// Tells what a verifier is asked about the operand, under the key of the issuer, with parts or by fingerprints alone.
pub(crate) fn show_prints<'a, S: Source>(
    source: &S,
    alloc: Global,
    kind: Kind,
    with_parts: bool,
    issuer: &'a str,
    file: &'a str,
) -> SessionAnswer<'a>
    ensures { ShowsPrints (S.holds source.now) kind with_parts issuer.entry.now file.entry.now
        result }
{
    match prints(source, alloc, issuer, kind, with_parts, file) {
        Ok(text) => SessionAnswer::Prints(text),
        Err(failure) => SessionAnswer::Failed(failure),
    }
}

// The lines of what a verifier may be asked in a search among the certificates of the operands.
fn prints_of_search<'a, S: Source>(
    source: &S,
    alloc: Global,
    with_parts: bool,
    files: SearchFiles<'a>,
) -> Result<Vec<u8>, Failure<'a>>
    ensures prints { IfOk result (λ text. AreSearchPrints (S.holds source.now)
        ((seen_files files.entry).anchors ∷ []) (if_given (seen_files files.entry).among)
        with_parts (seen_files files.entry).target text.items) }
    ensures fails { IfErr result (IsFailureOfSearchPrints (S.holds source.now)
        ((seen_files files.entry).anchors ∷ []) (if_given (seen_files files.entry).among)
        (seen_files files.entry).target) }
{
    let SearchFiles {
        anchors,
        among,
        target,
    } = files;
    match among {
        Some(others) => search_prints(source, alloc, &[anchors], &[others], with_parts, target),
        None => search_prints(source, alloc, &[anchors], &[], with_parts, target),
    }
}

/// Tells what a verifier may be asked in a search among the certificates of the operands.
pub(crate) fn show_search_prints<'a, S: Source>(
    source: &S,
    alloc: Global,
    with_parts: bool,
    files: SearchFiles<'a>,
) -> SessionAnswer<'a>
    ensures { ShowsSearchPrints (S.holds source.now) with_parts (seen_files files.entry) result }
{
    match prints_of_search(source, alloc, with_parts, files) {
        Ok(text) => SessionAnswer::Prints(text),
        Err(failure) => SessionAnswer::Failed(failure),
    }
}
