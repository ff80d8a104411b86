//! What a search of a command found, and the lines that say it.
ghost use Rattle.std.specs.Prelude.{◌≡◌, OnOk};
ghost use Rattle.std.specs.Io.KnownBytes.{Appends};
ghost use Rattle.cli_steps.specs.Found.{found_text};

use cli_answers::{FilePlace, SearchVerdict, path_to, search_verdict_to};
use std::io;
use std::io::Write;

/// What a search of a command found.
#[derive(Debug, Drop, PartialEq, Eq)]
pub struct FoundPath<'a> {
    /// The certificates of the path, from the anchor down to the target; none if no path was found.
    pub path: Vec<FilePlace<'a>>,
    pub verdict: SearchVerdict,
}

impl FoundPath<'_> {
    /// Writes a line for each certificate, `J FILE N`, and then the line of the verdict. It takes no memory.
    pub fn tell<W: Write>(&self, out: &mut W) -> io::Result<()>
        ensures { OnOk result (Appends (W.contents out.old) (W.contents out.new)
            (found_text self.now)) }
    {
        path_to(self.path.as_slice(), out)?;
        search_verdict_to(self.verdict, out)
    }
}
