//! What is asked of a path of certificates.
ghost use Rattle.std.specs.Prelude.{IfErr, IfOk};
ghost use Rattle.clap.specs.Words.{found_of, rows_of};
ghost use Rattle.cli_words.specs.CommandLine.{Ask, IsFlawOfQuestion, of_query};
ghost use Rattle.cli_words.specs.QueryTexts.{seen_words};

use crate::arguments::{text, words};
use crate::line::Flaw;
use clap::ArgMatches;
use std::alloc::Global;

/// What `check` and `compare` ask of a path, and a session's `check`: the words as they were given. None of them has been read.
#[derive(Debug, Drop, PartialEq, Eq)]
pub struct QueryWords<'a> {
    /// The moment, as `YYYYMMDDHHMMSSZ`.
    pub moment: &'a str,
    /// The purpose, as an OBJECT IDENTIFIER in dotted decimal, if there is one.
    pub purpose: Option<&'a str>,
    /// The anchor's certificate: the name of its file, or in a line of a session an operand.
    pub anchor: &'a str,
    /// The certificates of the path in order, at least one word: names of files, or operands.
    pub files: Vec<&'a str>,
}

/// What the matches ask.
#[tactic(auto, using(crate::proofs::Values::no_first))]
pub(crate) fn asked<'a>(alloc: Global, matches: &ArgMatches<'a>) -> Result<QueryWords<'a>, Flaw>
    ensures query { IfOk result (λ query. Ask (rows_of (found_of matches.now)) (seen_words query)) }
    ensures flaw { IfErr result (IsFlawOfQuestion of_query (rows_of (found_of matches.now))) }
{
    let Ok(files) = words(alloc, matches, "file") else {
        return Err(Flaw::NoMemory);
    };
    let (Some(moment), Some(anchor), Some(files)) = (
        text(matches, "at"),
        text(matches, "anchor"),
        files,
    ) else {
        return Err(Flaw::ArgumentMissing);
    };
    Ok(QueryWords {
        moment,
        purpose: text(matches, "purpose"),
        anchor,
        files,
    })
}
