//! The line of a delivery.
ghost use Rattle.std.specs.Prelude.{OnOk};
ghost use Rattle.std.specs.Io.KnownBytes.{Appends};
ghost use Rattle.cli_answers.specs.AnswerText.{counts_line};

use statements_facts::Counts;
use std::io;
use std::io::Write;

/// Writes the line that says what became of the facts of a delivery. It takes no memory.
pub fn counts_to<W: Write>(counts: &Counts, writer: &mut W) -> io::Result<()>
    ensures { OnOk result (Appends (W.contents writer.old) (W.contents writer.new)
        (counts_line counts.now)) }
{
    writeln!(
        writer,
        "stored {} kept {} contradicted {}",
        counts.stored, counts.kept, counts.contradicted
    )
}
