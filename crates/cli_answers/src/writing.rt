//! Texts that are written whole, or a front of them.
ghost use Rattle.std.specs.Prelude.{OnErr, OnOk};
ghost use Rattle.std.specs.Io.KnownBytes.{Appends};
ghost use Rattle.cli_answers.specs.Fronts.{TakesFront};

use std::io;
use std::io::{ErrorKind, Write};

/// Writes the text. If the writer fails, it has taken a front of the text, which may be nothing.
pub fn write_front<W: Write>(text: &[u8], writer: &mut W) -> io::Result<()>
    ensures written { OnOk result (Appends (W.contents writer.old) (W.contents writer.new)
        text.now) }
    ensures front { OnErr result (TakesFront (W.contents writer.old) (W.contents writer.new)
        text.now) }
{
    let mut done = 0;
    for _ in 0..u64::MAX {
        if done == text.len() {
            return Ok(());
        }
        match writer.write(&text[done..]) {
            Ok(0) => return Err(io::Error::from(ErrorKind::WriteZero)),
            Ok(n) => done += n,
            Err(error) => {
                if error.kind() != ErrorKind::Interrupted {
                    return Err(error);
                }
            }
        }
    }
    Err(io::Error::from(ErrorKind::Interrupted))
}
