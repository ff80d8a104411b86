//! The arguments of a subcommand, by their ids.
ghost use Rattle.std.specs.Prelude.{◌≡◌, IfOk, map, option_map};
ghost use Rattle.clap.specs.Words.{all_of, first_of, found_of, rows_of};
ghost use Rattle.cli_words.specs.CommandLine.{flag_in, words_in};

use clap::ArgMatches;
use std::alloc::{AllocError, Global};

/// The first word of this argument.
pub(crate) fn text<'a>(matches: &ArgMatches<'a>, id: &str) -> Option<&'a str>
    ensures { option_map (λ s. s.now) result ≡ first_of id.now (rows_of (found_of matches.now)) }
{
    matches.get_str(id)
}

/// Whether this option, which takes no value, was given.
pub(crate) fn is_set(matches: &ArgMatches<'_>, id: &str) -> bool
    ensures { result ≡ flag_in (rows_of (found_of matches.now)) id.now }
{
    match text(matches, id) {
        Some("true") => true,
        _ => false,
    }
}

/// All words of this argument, if it was given.
pub(crate) fn words<'a>(
    alloc: Global,
    matches: &ArgMatches<'a>,
    id: &str,
) -> Result<Option<Vec<&'a str>>, AllocError>
    ensures { IfOk result (λ words. option_map (λ v. map (λ s. s.now) v.items) words
        ≡ all_of id.now (rows_of (found_of matches.now))) }
{
    match matches.get_strs(id) {
        Some(words) => Ok(Some(Vec::from_slice(alloc, words)?)),
        None => Ok(None),
    }
}

/// All words of this argument; none if it was left out.
pub(crate) fn any_words<'a>(
    alloc: Global,
    matches: &ArgMatches<'a>,
    id: &str,
) -> Result<Vec<&'a str>, AllocError>
    ensures { IfOk result (λ words. map (λ s. s.now) words.items
        ≡ words_in (all_of id.now (rows_of (found_of matches.now)))) }
{
    match words(alloc, matches, id)? {
        Some(words) => Ok(words),
        None => Ok(Vec::new(alloc)),
    }
}
