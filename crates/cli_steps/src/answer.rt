//! Answers, and the lines that say them.
ghost use Rattle.std.specs.Prelude.{◌≡◌, OnOk};
ghost use Rattle.std.specs.Io.KnownBytes.{Appends};
ghost use Rattle.cli_steps.specs.AnswerText.{answer_text, delivered_text, failed_text, feeds_in, found_answer, lines_text, policy_answer, verdict_answer};

use crate::found::FoundPath;
use crate::policy_verdict::PolicyVerdict;
use cli_answers::{counts_to, search_status, verdict_status, verdict_to};
use cli_failures::Failure;
use relying_agreement::Verdict;
use statements_facts::Counts;
use std::io;
use std::io::Write;

/// The answer to a line of a session.
#[derive(Debug, Drop, PartialEq, Eq)]
pub enum SessionAnswer<'a> {
    /// None: the line asks for nothing.
    Nothing,
    /// A fingerprint more is believed.
    Believes,
    /// What was believed since the session began is forgotten.
    Forgets,
    /// The session ends.
    Ends,
    /// A statement was taken: how its facts were counted.
    Delivered(Counts),
    /// The verdict on a path.
    Told(Verdict),
    /// The verdict on a path whose certificate policies were processed.
    ToldWithPolicies(PolicyVerdict),
    /// The path that is found to a certificate, with its verdict, or that there is none.
    Found(FoundPath<'a>),
    /// The lines of what a verifier is asked.
    Prints(Vec<u8>),
    /// The lines of what is held.
    Listed(Vec<u8>),
    /// What failed.
    Failed(Failure<'a>),
    /// The line is no request.
    BadLine,
    /// The line is too long.
    LongLine,
}

// How many lines the text has.
fn feeds_in(text: &[u8]) -> usize
    ensures { result ≡ feeds_in text.now }
{
    text.iter().filter(|octet| **octet == b'\n').count()
}

fn write_lines<W: Write>(text: &[u8], out: &mut W) -> io::Result<()>
    ensures { OnOk result (Appends (W.contents out.old) (W.contents out.new)
        (lines_text text.now)) }
{
    writeln!(out, "0 {}", feeds_in(text))?;
    out.write_all(text)
}

fn write_counts<W: Write>(counts: &Counts, out: &mut W) -> io::Result<()>
    ensures { OnOk result (Appends (W.contents out.old) (W.contents out.new)
        (delivered_text counts.now)) }
{
    out.write_all(b"0 ")?;
    counts_to(counts, out)
}

fn write_verdict<W: Write>(verdict: Verdict, out: &mut W) -> io::Result<()>
    ensures { OnOk result (Appends (W.contents out.old) (W.contents out.new)
        (verdict_answer verdict)) }
{
    write!(out, "{} ", verdict_status(verdict))?;
    verdict_to(verdict, out)
}

fn write_found<W: Write>(found: &FoundPath<'_>, out: &mut W) -> io::Result<()>
    ensures { OnOk result (Appends (W.contents out.old) (W.contents out.new)
        (found_answer found.now)) }
{
    let status = search_status(found.verdict);
    writeln!(out, "{status} {}", found.path.len() + 1)?;
    found.tell(out)
}

fn write_policy_verdict<W: Write>(told: &PolicyVerdict, out: &mut W) -> io::Result<()>
    ensures { OnOk result (Appends (W.contents out.old) (W.contents out.new)
        (policy_answer told.now)) }
{
    let status = verdict_status(told.verdict);
    writeln!(out, "{status} {}", feeds_in(told.lines.as_slice()))?;
    out.write_all(told.lines.as_slice())
}

fn write_failure<W: Write>(failure: &Failure<'_>, out: &mut W) -> io::Result<()>
    ensures { OnOk result (Appends (W.contents out.old) (W.contents out.new)
        (failed_text failure.now)) }
{
    write!(out, "{} ", failure.status())?;
    failure.tell(out)
}

impl SessionAnswer<'_> {
    /// Writes the answer: the status that the command would have ended with, a space, and the line that it would have written; where there
    /// may be several lines, their number, and then the lines. It takes
    /// no memory.
    pub fn tell<W: Write>(&self, out: &mut W) -> io::Result<()>
        ensures { OnOk result (Appends (W.contents out.old) (W.contents out.new)
            (answer_text self.now)) }
    {
        match self {
            SessionAnswer::Nothing => Ok(()),
            SessionAnswer::Believes => out.write_all(b"0 believed\n"),
            SessionAnswer::Forgets => out.write_all(b"0 forgotten\n"),
            SessionAnswer::Ends => out.write_all(b"0 ended\n"),
            SessionAnswer::Delivered(counts) => write_counts(counts, out),
            SessionAnswer::Told(verdict) => write_verdict(*verdict, out),
            SessionAnswer::ToldWithPolicies(told) => write_policy_verdict(told, out),
            SessionAnswer::Found(found) => write_found(found, out),
            SessionAnswer::Prints(text) => write_lines(text.as_slice(), out),
            SessionAnswer::Listed(text) => write_lines(text.as_slice(), out),
            SessionAnswer::Failed(failure) => write_failure(failure, out),
            SessionAnswer::BadLine => out.write_all(b"5 bad line\n"),
            SessionAnswer::LongLine => out.write_all(b"5 line too long\n"),
        }
    }
}
