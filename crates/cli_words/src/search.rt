//! What is asked about a certificate that other certificates lead to.
ghost use Rattle.std.specs.Prelude.{IfErr, IfOk};
ghost use Rattle.clap.specs.Words.{found_of, rows_of};
ghost use Rattle.cli_words.specs.CommandLine.{AskToFind, IsFlawOfQuestion, of_query};
ghost use Rattle.cli_words.specs.SearchTexts.{seen_search_words};

use crate::arguments::{any_words, text, words};
use crate::line::Flaw;
use clap::ArgMatches;
use std::alloc::Global;

/// What `find` asks: the words as they were given. None of them has been read.
#[derive(Debug, Drop, PartialEq, Eq)]
pub struct SearchWords<'a> {
    /// The moment, as `YYYYMMDDHHMMSSZ`.
    pub moment: &'a str,
    /// The purpose, as an OBJECT IDENTIFIER in dotted decimal, if there is one.
    pub purpose: Option<&'a str>,
    /// The host, IP address or mailbox that the certificate is to speak for, if there is one.
    pub name: Option<&'a str>,
    /// The files of the certificates of trust anchors, at least one.
    pub anchors: Vec<&'a str>,
    /// The files of the certificates that may stand between an anchor and the target.
    pub among: Vec<&'a str>,
    /// The file of the certificate that is asked about.
    pub target: &'a str,
}

/// What the matches ask.
#[tactic(auto, using(crate::proofs::Values::no_first))]
pub(crate) fn asked_to_find<'a>(
    alloc: Global,
    matches: &ArgMatches<'a>,
) -> Result<SearchWords<'a>, Flaw>
    ensures search { IfOk result (λ search.
        AskToFind (rows_of (found_of matches.now)) (seen_search_words search)) }
    ensures flaw { IfErr result (IsFlawOfQuestion of_query (rows_of (found_of matches.now))) }
{
    let (Ok(anchors), Ok(among)) = (
        words(alloc, matches, "anchor"),
        any_words(alloc, matches, "among"),
    ) else {
        return Err(Flaw::NoMemory);
    };
    let (Some(moment), Some(anchors), Some(target)) = (
        text(matches, "at"),
        anchors,
        text(matches, "file"),
    ) else {
        return Err(Flaw::ArgumentMissing);
    };
    Ok(SearchWords {
        moment,
        purpose: text(matches, "purpose"),
        name: text(matches, "name"),
        anchors,
        among,
        target,
    })
}
