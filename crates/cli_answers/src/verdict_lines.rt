//! The lines of verdicts.
ghost use Rattle.std.specs.Prelude.{OnOk};
ghost use Rattle.std.specs.Io.KnownBytes.{Appends};
ghost use Rattle.cli_answers.specs.AnswerText.{comparison_line, invalid_text, verdict_line, verdict_text};

use path::Reason;
use relying_agreement::{Comparison, Verdict};
use std::io;
use std::io::Write;

// The first certificate that is refused, with its reason.
fn write_invalid<W: Write>(certificate: usize, reason: Reason, writer: &mut W) -> io::Result<()>
    ensures { OnOk result (Appends (W.contents writer.old) (W.contents writer.new)
        (invalid_text certificate reason)) }
{
    write!(
        writer,
        "invalid {certificate} {} {}",
        reason.rank(),
        reason.name()
    )
}

fn write_verdict<W: Write>(verdict: Verdict, writer: &mut W) -> io::Result<()>
    ensures { OnOk result (Appends (W.contents writer.old) (W.contents writer.new)
        (verdict_text verdict)) }
{
    match verdict {
        Verdict::Valid => write!(writer, "valid"),
        Verdict::Invalid(certificate, reason) => write_invalid(certificate, reason, writer),
        Verdict::Revoked(certificate, reason) => write!(writer, "revoked {certificate} {reason}"),
        Verdict::Unknown(certificate) => write!(writer, "unknown {certificate}"),
    }
}

/// Writes the line of the verdict. It takes no memory.
pub fn verdict_to<W: Write>(verdict: Verdict, writer: &mut W) -> io::Result<()>
    ensures { OnOk result (Appends (W.contents writer.old) (W.contents writer.new)
        (verdict_line verdict)) }
{
    write_verdict(verdict, writer)?;
    writeln!(writer)
}

/// Writes the line of the comparison: both verdicts are one, or differ from some certificate on. It takes no memory.
pub fn comparison_to<W: Write>(comparison: Comparison, writer: &mut W) -> io::Result<()>
    ensures { OnOk result (Appends (W.contents writer.old) (W.contents writer.new)
        (comparison_line comparison)) }
{
    match comparison {
        Comparison::Same(verdict) => {
            write!(writer, "same ")?;
            verdict_to(verdict, writer)
        }
        Comparison::Differ(one, other, certificate) => {
            write!(writer, "differ {certificate}: ")?;
            write_verdict(one, writer)?;
            write!(writer, "; ")?;
            verdict_to(other, writer)
        }
    }
}
