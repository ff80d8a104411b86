//! What a search answers.
ghost use Rattle.std.specs.Prelude.{◌≡◌, OnOk};
ghost use Rattle.std.specs.Io.KnownBytes.{Appends};
ghost use Rattle.cli_answers.specs.SearchText.{search_status, search_verdict_line};

use crate::status::{INVALID, UNKNOWN, verdict_status};
use crate::verdict_lines::verdict_to;
use relying_agreement::Verdict;
use std::io;
use std::io::Write;

/// What is found of a certificate that other certificates lead to.
#[derive(Clone, Copy, Debug, PartialEq, Eq)]
pub enum SearchVerdict {
    /// The verdict on the path that was found, if not `OtherName`.
    Told(Verdict),
    /// The path that was found is valid, but its target does not speak for the name.
    OtherName,
    /// No path is valid.
    NotFound,
    /// What the search might spend is used up.
    GaveUp,
}

/// The exit status that says it: that of the verdict; 1 if the target does not speak for the name or no path is valid, and 3 if the search
/// gave up.
pub fn search_status(found: SearchVerdict) -> u8
    ensures { result ≡ search_status found }
{
    match found {
        SearchVerdict::Told(verdict) => verdict_status(verdict),
        SearchVerdict::OtherName | SearchVerdict::NotFound => INVALID,
        SearchVerdict::GaveUp => UNKNOWN,
    }
}

/// Writes the line that says it. It takes no memory.
pub fn search_verdict_to<W: Write>(found: SearchVerdict, writer: &mut W) -> io::Result<()>
    ensures { OnOk result (Appends (W.contents writer.old) (W.contents writer.new)
        (search_verdict_line found)) }
{
    match found {
        SearchVerdict::Told(verdict) => verdict_to(verdict, writer),
        SearchVerdict::OtherName => writeln!(writer, "other name"),
        SearchVerdict::NotFound => writeln!(writer, "not found"),
        SearchVerdict::GaveUp => writeln!(writer, "gave up"),
    }
}
