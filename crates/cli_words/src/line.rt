//! What a command line asks for.
ghost use Rattle.std.specs.Prelude.{◌≡◌, ◌<◌, ◌^◌, ◌⊎◌, ◌∷◌, IfErr, IfOk, MatchResult, None, Some, codes, length, map, option_map};
ghost use Rattle.clap.specs.Words.{Text, all_of, app_of, found_of, kind_of, rows_of, subcommand_rows_of};
ghost use Rattle.clap.specs.declared.error.kind.ErrorKind.TheVariants.{InvalidValue, OutOfMemory};
ghost use Rattle.cli_words.specs.declared.line.Flaw.TheVariants.{NoMemory, OtherKind};
ghost use Rattle.cli_words.specs.App.{program as program_app};
ghost use Rattle.cli_words.specs.CommandLine.{AreRefusedByCommand, AreRefusedWith, AskNoPolicies, HasFlaw, IsErrorOf, GivesTexts};
ghost use Rattle.cli_words.specs.CommandLine.{IsFlawOfCheck, IsFlawOfPrints, IsFlawOfQuestion, IsFlawOfShow, IsLack, IsLine, IsLineOf};
ghost use Rattle.cli_words.specs.CommandLine.{IsRefusedValue, IsRefusedWith, ReadsLine, kind_in_rows, kind_or_certificate, of_compare};
ghost use Rattle.cli_words.specs.CommandLine.{of_deliver, of_file, of_find, of_store};
ghost use Rattle.cli_words.specs.RunOptions.{LacksValue};
ghost use Rattle.cli_words.specs.PlainLine.{IsOutOfMemory, PlainLine, SpellsLine, plain_words};

use crate::app::program;
use crate::arguments::{any_words, is_set, text, words};
use crate::leading::value_wanted;
use crate::policies::{PolicyWords, has_policy_flag, policies_asked};
use crate::query::{QueryWords, asked};
use crate::search::{SearchWords, asked_to_find};
use clap::error::ErrorKind;
use clap::{ArgMatches, Command, Error};
use std::alloc::{AllocError, Global};

/// What a file is said to hold.
#[derive(Clone, Copy, Debug, PartialEq, Eq)]
pub enum Kind {
    /// A certificate.
    Certificate,
    /// A certificate revocation list.
    RevocationList,
    /// An OCSP response.
    Response,
}

/// A subcommand, with what each of its options and files says.
#[derive(Debug, Drop, PartialEq, Eq)]
pub enum Line<'a> {
    /// Print the DER value in the file.
    Tree {
        file: &'a str,
    },
    /// Print what the file says, which is to hold a value of that kind.
    Show {
        kind: Kind,
        /// Whether what no verdict needs is printed too.
        with_details: bool,
        file: &'a str,
    },
    /// Print the fingerprints of what a verifier is asked about the file, which is to hold a value of that kind, and the
    /// issuer's key, which stands in the certificate in the other file.
    Prints {
        issuer: &'a str,
        kind: Kind,
        /// Whether the texts that are verified are printed too.
        with_parts: bool,
        file: &'a str,
    },
    /// Print the fingerprints of what a verifier may be asked in a search for a path to the certificate in the file, under the
    /// certificates in the issuers' file, among those in the other files, of which there is at least one.
    SearchPrints {
        issuers: &'a str,
        among: Vec<&'a str>,
        /// Whether the texts that are verified are printed too.
        with_parts: bool,
        file: &'a str,
    },
    /// Put the statement in the file into the store, if the key in the certificate in the issuer's file signed it, and a
    /// signature is good if its fingerprint is among the verdicts.
    Deliver {
        store: &'a str,
        verdicts: &'a str,
        issuer: &'a str,
        file: &'a str,
    },
    /// Print the verdict on a path, by what the store holds. A signature is good if its fingerprint is among the verdicts.
    Check {
        store: &'a str,
        verdicts: &'a str,
        query: QueryWords<'a>,
    },
    /// The same, where certificate policies are processed, and print the policies at the end of the path too.
    CheckWithPolicies {
        store: &'a str,
        verdicts: &'a str,
        query: QueryWords<'a>,
        policies: PolicyWords<'a>,
    },
    /// Print whether the other store gives the same verdict.
    Compare {
        store: &'a str,
        other: &'a str,
        verdicts: &'a str,
        query: QueryWords<'a>,
    },
    /// Print the path that is found to the certificate, by what the store holds, and its verdict. A signature is good if its
    /// fingerprint is among the verdicts.
    Find {
        store: &'a str,
        verdicts: &'a str,
        search: SearchWords<'a>,
    },
    /// Print what the fault, reason or status of these words means; all of them if there is no word.
    Explain {
        words: Vec<&'a str>,
    },
    /// Answer requests over the store, which is made if there is none. A signature is good if its fingerprint is among the verdicts, if
    /// there are any, or came in a request.
    Session {
        store: &'a str,
        verdicts: Option<&'a str>,
    },
    /// Print what the store holds. With a moment, whether each statement is in force then.
    List {
        store: &'a str,
        moment: Option<&'a str>,
    },
}

// Why a subcommand is no line.
#[derive(Clone, Copy)]
pub(crate) enum Flaw {
    ArgumentMissing,
    OtherKind,
    PolicyMissing,
    NoMemory,
}

fn tree_line<'a>(matches: &ArgMatches<'a>) -> Result<Line<'a>, Flaw>
    ensures line { IfOk result (IsLine (codes "tree", rows_of (found_of matches.now))) }
    ensures flaw { IfErr result (IsLack of_file (rows_of (found_of matches.now))) }
{
    match text(matches, "file") {
        Some(file) => Ok(Line::Tree { file }),
        None => Err(Flaw::ArgumentMissing),
    }
}

// The kind that has the name; without a name, a certificate.
fn kind_named(name: Option<&str>) -> Option<Kind>
    ensures { result ≡ kind_or_certificate (option_map (λ s. s.now) name.entry) }
{
    match name {
        None | Some("cert") => Some(Kind::Certificate),
        Some("crl") => Some(Kind::RevocationList),
        Some("ocsp") => Some(Kind::Response),
        Some(_) => None,
    }
}

// The kind that the rows name, if any.
fn kind_asked(matches: &ArgMatches<'_>) -> Result<Kind, Flaw>
    ensures kind { IfOk result (λ kind. kind_in_rows (rows_of (found_of matches.now)) ≡ Some kind) }
    ensures flaw { IfErr result (λ flaw.
        (flaw ≡ OtherKind) × (kind_in_rows (rows_of (found_of matches.now)) ≡ None)) }
{
    kind_named(text(matches, "as")).ok_or(Flaw::OtherKind)
}

fn show_line<'a>(matches: &ArgMatches<'a>) -> Result<Line<'a>, Flaw>
    ensures line { IfOk result (IsLine (codes "show", rows_of (found_of matches.now))) }
    ensures flaw { IfErr result (IsFlawOfShow (rows_of (found_of matches.now))) }
{
    let kind = kind_asked(matches)?;
    let Some(file) = text(matches, "file") else {
        return Err(Flaw::ArgumentMissing);
    };
    Ok(Line::Show {
        kind,
        with_details: is_set(matches, "all"),
        file,
    })
}

// The line of `prints`, where there is nothing to search among.
fn file_prints_line<'a>(matches: &ArgMatches<'a>) -> Result<Line<'a>, Flaw>
    requires { all_of (codes "among") (rows_of (found_of matches.now)) ≡ None }
    ensures line { IfOk result (IsLine (codes "prints", rows_of (found_of matches.now))) }
    ensures flaw { IfErr result (IsFlawOfPrints (rows_of (found_of matches.now))) }
{
    let kind = kind_asked(matches)?;
    let (Some(issuer), Some(file)) = (text(matches, "issuer"), text(matches, "file")) else {
        return Err(Flaw::ArgumentMissing);
    };
    Ok(Line::Prints {
        issuer,
        kind,
        with_parts: is_set(matches, "parts"),
        file,
    })
}

// The line of `prints`, where there are files to search among: what they lead to is a certificate.
fn search_prints_line<'a>(matches: &ArgMatches<'a>, among: Vec<&'a str>) -> Result<Line<'a>, Flaw>
    requires { GivesTexts (rows_of (found_of matches.now)) (codes "among") among.items }
    ensures line { IfOk result (IsLine (codes "prints", rows_of (found_of matches.now))) }
    ensures flaw { IfErr result (IsFlawOfPrints (rows_of (found_of matches.now))) }
{
    let Ok(Kind::Certificate) = kind_asked(matches) else {
        return Err(Flaw::OtherKind);
    };
    let (Some(issuers), Some(file)) = (text(matches, "issuer"), text(matches, "file")) else {
        return Err(Flaw::ArgumentMissing);
    };
    Ok(Line::SearchPrints {
        issuers,
        among,
        with_parts: is_set(matches, "parts"),
        file,
    })
}

fn prints_line<'a>(alloc: Global, matches: &ArgMatches<'a>) -> Result<Line<'a>, Flaw>
    ensures line { IfOk result (IsLine (codes "prints", rows_of (found_of matches.now))) }
    ensures flaw { IfErr result (IsFlawOfPrints (rows_of (found_of matches.now))) }
{
    match words(alloc, matches, "among") {
        Ok(Some(among)) => search_prints_line(matches, among),
        Ok(None) => file_prints_line(matches),
        Err(_) => Err(Flaw::NoMemory),
    }
}

fn deliver_line<'a>(matches: &ArgMatches<'a>) -> Result<Line<'a>, Flaw>
    ensures line { IfOk result (IsLine (codes "deliver", rows_of (found_of matches.now))) }
    ensures flaw { IfErr result (IsLack of_deliver (rows_of (found_of matches.now))) }
{
    let (Some(store), Some(verdicts), Some(issuer), Some(file)) = (
        text(matches, "store"),
        text(matches, "verdicts"),
        text(matches, "issuer"),
        text(matches, "file"),
    ) else {
        return Err(Flaw::ArgumentMissing);
    };
    Ok(Line::Deliver {
        store,
        verdicts,
        issuer,
        file,
    })
}

// The line of `check`, where nothing is asked of policies.
fn check_path_line<'a>(alloc: Global, matches: &ArgMatches<'a>) -> Result<Line<'a>, Flaw>
    requires { AskNoPolicies (rows_of (found_of matches.now)) }
    ensures line { IfOk result (IsLine (codes "check", rows_of (found_of matches.now))) }
    ensures flaw { IfErr result (IsFlawOfCheck (rows_of (found_of matches.now))) }
{
    let (Some(store), Some(verdicts)) = (text(matches, "store"), text(matches, "verdicts")) else {
        return Err(Flaw::ArgumentMissing);
    };
    Ok(Line::Check {
        store,
        verdicts,
        query: asked(alloc, matches)?,
    })
}

// The line of `check`, where these policies are asked for.
fn check_policies_line<'a>(
    alloc: Global,
    matches: &ArgMatches<'a>,
    policies: Vec<&'a str>,
) -> Result<Line<'a>, Flaw>
    requires { GivesTexts (rows_of (found_of matches.now)) (codes "policy") policies.items }
    ensures line { IfOk result (IsLine (codes "check", rows_of (found_of matches.now))) }
    ensures flaw { IfErr result (IsFlawOfCheck (rows_of (found_of matches.now))) }
{
    let (Some(store), Some(verdicts)) = (text(matches, "store"), text(matches, "verdicts")) else {
        return Err(Flaw::ArgumentMissing);
    };
    let query = asked(alloc, matches)?;
    Ok(Line::CheckWithPolicies {
        store,
        verdicts,
        query,
        policies: policies_asked(matches, policies),
    })
}

fn check_line<'a>(alloc: Global, matches: &ArgMatches<'a>) -> Result<Line<'a>, Flaw>
    ensures line { IfOk result (IsLine (codes "check", rows_of (found_of matches.now))) }
    ensures flaw { IfErr result (IsFlawOfCheck (rows_of (found_of matches.now))) }
{
    match words(alloc, matches, "policy") {
        Ok(Some(policies)) => check_policies_line(alloc, matches, policies),
        Ok(None) => {
            if has_policy_flag(matches) {
                return Err(Flaw::PolicyMissing);
            }
            check_path_line(alloc, matches)
        }
        Err(_) => Err(Flaw::NoMemory),
    }
}

fn compare_line<'a>(alloc: Global, matches: &ArgMatches<'a>) -> Result<Line<'a>, Flaw>
    ensures line { IfOk result (IsLine (codes "compare", rows_of (found_of matches.now))) }
    ensures flaw { IfErr result (IsFlawOfQuestion of_compare (rows_of (found_of matches.now))) }
{
    let (Some(store), Some(other), Some(verdicts)) = (
        text(matches, "store"),
        text(matches, "other"),
        text(matches, "verdicts"),
    ) else {
        return Err(Flaw::ArgumentMissing);
    };
    Ok(Line::Compare {
        store,
        other,
        verdicts,
        query: asked(alloc, matches)?,
    })
}

fn find_line<'a>(alloc: Global, matches: &ArgMatches<'a>) -> Result<Line<'a>, Flaw>
    ensures line { IfOk result (IsLine (codes "find", rows_of (found_of matches.now))) }
    ensures flaw { IfErr result (IsFlawOfQuestion of_find (rows_of (found_of matches.now))) }
{
    let (Some(store), Some(verdicts)) = (text(matches, "store"), text(matches, "verdicts")) else {
        return Err(Flaw::ArgumentMissing);
    };
    Ok(Line::Find {
        store,
        verdicts,
        search: asked_to_find(alloc, matches)?,
    })
}

fn explain_line<'a>(alloc: Global, matches: &ArgMatches<'a>) -> Result<Line<'a>, Flaw>
    ensures line { IfOk result (IsLine (codes "explain", rows_of (found_of matches.now))) }
    ensures flaw { IfErr result (λ flaw. flaw ≡ NoMemory) }
{
    match any_words(alloc, matches, "topic") {
        Ok(words) => Ok(Line::Explain { words }),
        Err(_) => Err(Flaw::NoMemory),
    }
}

fn session_line<'a>(matches: &ArgMatches<'a>) -> Result<Line<'a>, Flaw>
    ensures line { IfOk result (IsLine (codes "session", rows_of (found_of matches.now))) }
    ensures flaw { IfErr result (IsLack of_store (rows_of (found_of matches.now))) }
{
    let Some(store) = text(matches, "store") else {
        return Err(Flaw::ArgumentMissing);
    };
    Ok(Line::Session {
        store,
        verdicts: text(matches, "verdicts"),
    })
}

fn list_line<'a>(matches: &ArgMatches<'a>) -> Result<Line<'a>, Flaw>
    ensures line { IfOk result (IsLine (codes "list", rows_of (found_of matches.now))) }
    ensures flaw { IfErr result (IsLack of_store (rows_of (found_of matches.now))) }
{
    let Some(store) = text(matches, "store") else {
        return Err(Flaw::ArgumentMissing);
    };
    Ok(Line::List {
        store,
        moment: text(matches, "at"),
    })
}

// The line of the subcommand that was entered.
fn line_of<'a>(alloc: Global, matches: &ArgMatches<'a>) -> Result<Line<'a>, Flaw>
    ensures line { IfOk result (IsLineOf (subcommand_rows_of matches.now)) }
    ensures flaw { IfErr result (HasFlaw (subcommand_rows_of matches.now)) }
{
    let Some((name, inner)) = matches.subcommand() else {
        return Err(Flaw::ArgumentMissing);
    };
    match name {
        "tree" => tree_line(inner),
        "show" => show_line(inner),
        "prints" => prints_line(alloc, inner),
        "deliver" => deliver_line(inner),
        "check" => check_line(alloc, inner),
        "compare" => compare_line(alloc, inner),
        "find" => find_line(alloc, inner),
        "explain" => explain_line(alloc, inner),
        "session" => session_line(inner),
        "list" => list_line(inner),
        _ => Err(Flaw::ArgumentMissing),
    }
}

fn count_of(words: &[&str]) -> usize
    ensures count { result ≡ length words.now }
    ensures fits { result < 2 ^ 64 }
{
    words.len()
}

// The error of a flaw.
fn error_of(command: &mut Command<'_>, flaw: Flaw) -> Result<Error, AllocError>
    ensures { IfOk result (λ e. IsErrorOf flaw (kind_of e)) }
{
    match flaw {
        // clap answers no matches without the subcommand and its files, since all are required.
        Flaw::ArgumentMissing => {
            command.error(ErrorKind::MissingRequiredArgument, "an argument is missing")
        }
        Flaw::OtherKind => {
            command.error(
                ErrorKind::InvalidValue,
                "KIND has to be 'cert', 'crl' or 'ocsp', and with --among 'cert'",
            )
        }
        Flaw::PolicyMissing => {
            command.error(
                ErrorKind::MissingRequiredArgument,
                "--require-policy, --inhibit-mapping and --inhibit-any-policy need --policy",
            )
        }
        Flaw::NoMemory => Err(AllocError),
    }
}

// The line that the matches say, or what the command answers to their flaw.
fn line_or_error<'a>(
    alloc: Global,
    command: &mut Command<'_>,
    matches: &ArgMatches<'a>,
) -> Result<Line<'a>, Error>
    ensures line { IfOk result (IsLineOf (subcommand_rows_of matches.now)) }
    ensures error { IfErr result (λ e. (kind_of e ≡ OutOfMemory)
        ⊎ IsRefusedWith (subcommand_rows_of matches.now) (kind_of e)) }
{
    match line_of(alloc, matches) {
        Ok(line) => Ok(line),
        Err(flaw) => Err(error_of(command, flaw)?),
    }
}

// The line that the program's command gives for the words. The command has another owner than the matches, since each exit drops what it
// owns, which the proof pays for.
fn line_by<'a>(
    alloc: Global,
    command: &mut Command<'a>,
    words: &'a [&'a str],
) -> Result<Line<'a>, Error>
    requires { app_of command.old ≡ program_app }
    ensures reads { IfOk result (ReadsLine (map (λ w. w.now) words.entry.now)) }
    ensures refuses { IfErr result (λ e. (kind_of e ≡ OutOfMemory)
        ⊎ AreRefusedByCommand (map (λ w. w.now) words.entry.now) (kind_of e)) }
{
    let matches = command.try_get_matches_from_mut(words)?;
    line_or_error(alloc, command, &matches)
}

// The line that clap's definition gives for the words.
fn line_of_words<'a>(alloc: Global, words: &'a [&'a str]) -> Result<Line<'a>, Error>
    ensures reads { IfOk result (ReadsLine (map (λ w. w.now) words.entry.now)) }
    ensures refuses { IfErr result (λ e. (kind_of e ≡ OutOfMemory)
        ⊎ AreRefusedByCommand (map (λ w. w.now) words.entry.now) (kind_of e)) }
{
    let mut command = program(alloc)?;
    line_by(alloc, &mut command, words)
}

// The error of an option in front of the command that wants another value than this one.
fn value_error(alloc: Global, wanted: &str, value: &str) -> Result<Error, AllocError>
    ensures { IfOk result (λ e. kind_of e ≡ InvalidValue) }
{
    let mut message = String::from_str(alloc, wanted)?;
    message.push_str(", not '")?;
    message.push_str(value)?;
    message.push_str("'")?;
    let mut command = program(alloc)?;
    command.error(ErrorKind::InvalidValue, message.as_str())
}

/// The line that the words are, of which the first is the program's name, as in `env::args`. The words belong to one
/// command line: an error has clap's text, and for help `use_stderr()` of it is false. If an option for the whole run is left in front
/// (`run_options`), the error says what its value has to be, and what stands there.
pub fn command_of<'a>(alloc: Global, words: &'a [&'a str]) -> Result<Line<'a>, Error>
    ensures reads { IfOk result (ReadsLine (map (λ w. w.now) words.entry.now)) }
    ensures plain { (name : Text) (line : PlainLine)
        → map (λ w. w.now) words.entry.now ≡ name ∷ plain_words line
        → MatchResult result (SpellsLine line) IsOutOfMemory }
    ensures refuses { IfErr result (λ e. (kind_of e ≡ OutOfMemory)
        ⊎ AreRefusedWith (map (λ w. w.now) words.entry.now) (kind_of e)) }
    ensures value { LacksValue (map (λ w. w.now) words.entry.now) → IsRefusedValue result }
{
    if let Some(wanted) = value_wanted(words) {
        let value = match words.get(2) {
            Some(value) => *value,
            None => "",
        };
        return Err(value_error(alloc, wanted, value)?);
    }
    // There are fewer words than the most that clap takes of one argument.
    let _count = count_of(words);
    line_of_words(alloc, words)
}
