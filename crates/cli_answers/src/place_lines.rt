//! The lines of a path: where each of its certificates stands.
ghost use Rattle.std.specs.Prelude.{OnOk, map};
ghost use Rattle.std.specs.Io.KnownBytes.{Appends};
ghost use Rattle.cli_answers.specs.SearchText.{path_lines, place_line, seen_place};

use std::io;
use std::io::Write;

/// A certificate in a file, counted from 1.
#[derive(Clone, Copy, Debug, PartialEq, Eq)]
pub struct FilePlace<'a> {
    pub file: &'a str,
    pub number: usize,
}

/// Writes the line of the certificate of that number on a path, where 0 is the anchor. It takes no memory.
pub fn file_place_to<W: Write>(
    index: usize,
    place: &FilePlace<'_>,
    writer: &mut W,
) -> io::Result<()>
    ensures { OnOk result (Appends (W.contents writer.old) (W.contents writer.new)
        (place_line index (seen_place place.now))) }
{
    writeln!(writer, "{index} {} {}", place.file, place.number)
}

/// Writes the lines of a path, the anchor's first. It takes no memory.
pub fn path_to<W: Write>(places: &[FilePlace<'_>], writer: &mut W) -> io::Result<()>
    ensures { OnOk result (Appends (W.contents writer.old) (W.contents writer.new)
        (path_lines 0 (map seen_place places.now))) }
{
    for (index, place) in places.iter().enumerate() {
        file_place_to(index, place, writer)?;
    }
    Ok(())
}
