//! Explanations of faults, reasons and statuses.
ghost use Rattle.std.specs.Prelude.{◌≡◌, IfErr, OnOk, map};
ghost use Rattle.cli_failures.specs.Report.{UnlessLate, WritesText};
ghost use Rattle.cli.specs.Outcome.{FailsToExplain, IsExplanation};

use cli_failures::{Failure, entries, explain_to, is_known};
use std::io::Write;

/// Writes what the fault, reason or status of these words means, an entry a line; all entries if there are no words.
pub fn explain<'a, O: Write>(words: &[&'a str], out: &mut O) -> Result<(), Failure<'a>>
    ensures done { OnOk result (WritesText (IsExplanation (map (λ w. w.now) words.now))
        (O.contents out.old) (O.contents out.new)) }
    ensures fails { IfErr result (FailsToExplain (map (λ w. w.now) words.now)
        (O.contents out.old) (O.contents out.new)) }
    ensures quiet { IfErr result (λ failure. UnlessLate failure (out.new ≡ out.old)) }
{
    let entries = entries();
    if !is_known(entries, words) {
        return Err(Failure::BadTopic);
    }
    match explain_to(entries, words, out) {
        Ok(()) => Ok(()),
        Err(_) => Err(Failure::Unwritable),
    }
}
