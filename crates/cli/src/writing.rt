//! The line of an answer, which is made in memory and then written: whatever fails, no other text is written.
ghost use Rattle.std.specs.Prelude.{OnErr, OnOk};
ghost use Rattle.std.specs.Io.KnownBytes.{Appends};
ghost use Rattle.cli_answers.specs.AnswerText.{comparison_line, counts_line, verdict_line};
ghost use Rattle.cli_answers.specs.Fronts.{TakesFront};

use arrayvec::ArrayVec;
use cli_answers::{comparison_to, counts_to, verdict_to, write_front};
use relying_agreement::{Comparison, Verdict};
use statements_facts::Counts;
use std::io;
use std::io::Write;

/// More octets than the line of an answer has.
const LINE_MOST: usize = 256;

/// Memory for the line of an answer.
type Line = ArrayVec<u8, LINE_MOST>;

/// Writes the line of the counts, or a front of it.
pub(crate) fn write_counts<W: Write>(counts: &Counts, writer: &mut W) -> io::Result<()>
    ensures written { OnOk result (Appends (W.contents writer.old) (W.contents writer.new)
        (counts_line counts.now)) }
    ensures front { OnErr result (TakesFront (W.contents writer.old) (W.contents writer.new)
        (counts_line counts.now)) }
{
    let mut line: Line = Line::new();
    counts_to(counts, &mut line)?;
    write_front(line.as_slice(), writer)
}

/// Writes the line of the verdict, or a front of it.
pub(crate) fn write_verdict<W: Write>(verdict: Verdict, writer: &mut W) -> io::Result<()>
    ensures written { OnOk result (Appends (W.contents writer.old) (W.contents writer.new)
        (verdict_line verdict)) }
    ensures front { OnErr result (TakesFront (W.contents writer.old) (W.contents writer.new)
        (verdict_line verdict)) }
{
    let mut line: Line = Line::new();
    verdict_to(verdict, &mut line)?;
    write_front(line.as_slice(), writer)
}

/// Writes the line of the comparison, or a front of it.
pub(crate) fn write_comparison<W: Write>(comparison: Comparison, writer: &mut W) -> io::Result<()>
    ensures written { OnOk result (Appends (W.contents writer.old) (W.contents writer.new)
        (comparison_line comparison)) }
    ensures front { OnErr result (TakesFront (W.contents writer.old) (W.contents writer.new)
        (comparison_line comparison)) }
{
    let mut line: Line = Line::new();
    comparison_to(comparison, &mut line)?;
    write_front(line.as_slice(), writer)
}
