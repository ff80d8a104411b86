//! Lines, read one at a time into a buffer that is used again.
ghost use Rattle.std.specs.Prelude.{◌≡◌, ◌<◌, ◌≤◌, ◌^◌, IfOk, OnOk, length, vec_capacity};
ghost use Rattle.cli_answers.specs.Lines.{EndsFull, IsLineRead, PassesLine, TakesOctet};

use std::io;
use std::io::Read;

/// The most octets that a line may have, its line feed not counted.
pub const LINE_MOST: usize = 1 << 20;

/// What was read from a source.
#[derive(Clone, Copy, Debug, PartialEq, Eq)]
pub enum LineRead {
    /// A line, which the buffer holds without its line feed.
    Line,
    /// A line of more than `LINE_MOST` octets, all of which were passed over.
    TooLong,
    /// Nothing: the source was at its end.
    End,
}

// The next octet of the source; `None` at its end.
fn read_octet<R: Read>(source: &mut R) -> io::Result<Option<u8>>
    ensures { IfOk result (TakesOctet (R.remaining source.old) (R.remaining source.new)) }
{
    let mut octet = [0];
    match source.read(&mut octet)? {
        0 => Ok(None),
        _ => Ok(Some(octet[0])),
    }
}

// Passes over what is left of a line, with its line feed.
fn pass_line<R: Read>(source: &mut R) -> io::Result<()>
    ensures { OnOk result (PassesLine (R.remaining source.old) (R.remaining source.new)) }
{
    for _ in 0..u64::MAX {
        let Some(octet) = read_octet(source)? else {
            return Ok(());
        };
        if octet == b'\n' {
            return Ok(());
        }
    }
    Err(io::Error::from(io::ErrorKind::Other))
}

// What was read if a buffer of the longest line is full.
fn pass_long_line<R: Read>(source: &mut R) -> io::Result<LineRead>
    ensures { IfOk result (EndsFull (R.remaining source.old) (R.remaining source.new)) }
{
    let Some(octet) = read_octet(source)? else {
        return Ok(LineRead::Line);
    };
    if octet == b'\n' {
        return Ok(LineRead::Line);
    }
    pass_line(source)?;
    Ok(LineRead::TooLong)
}

// What was read if the source ends behind these octets.
fn last_line(line: &[u8]) -> LineRead
    ensures empty { length line.now ≡ 0 → result ≡ LineRead.End }
    ensures some { 0 < length line.now → result ≡ LineRead.Line }
{
    if line.is_empty() {
        LineRead::End
    } else {
        LineRead::Line
    }
}

/// The next line of the source, read into the buffer, which has room for the longest line. The last line need not end with a line feed. An
/// error of the source is answered, an interruption too; what was read of the line is lost then.
///
/// It reads octet by octet, so that the source should be buffered, and takes no memory.
pub fn read_line<R: Read>(source: &mut R, line: &mut Vec<u8>) -> io::Result<LineRead>
    requires room { 2 ^ 20 ≤ vec_capacity line.old }
    ensures read { IfOk result (λ read.
        IsLineRead (R.remaining source.old) (R.remaining source.new) line.new.items read) }
    ensures room { vec_capacity line.old ≤ vec_capacity line.new }
{
    line.clear();
    while line.len() < LINE_MOST {
        let Some(octet) = read_octet(source)? else {
            return Ok(last_line(line));
        };
        if octet == b'\n' {
            return Ok(LineRead::Line);
        }
        line.push_reserved(octet);
    }
    pass_long_line(source)
}
