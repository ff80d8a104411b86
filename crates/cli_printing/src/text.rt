//! Octets as text: in hexadecimal, or as the characters that they are.
ghost use Rattle.std.specs.Prelude.{◌≡◌, ◌*◌, ◌≤◌, ◌∷◌, length};
ghost use Rattle.hex.specs.Hex.{encode_lower};
ghost use Rattle.cli_printing.specs.Printed.{shown_contents};
ghost use Rattle.cli_printing.specs.EscapedText.{escaped, escaped_octet, prints_as_itself, spaced_text};
ghost use Rattle.cli_printing.specs.Written.{Writes};

use std::io;
use std::io::Write;

// How many octets are written in hexadecimal at a time.
const CHUNK: usize = 64;

// The digits of a few octets, in one write.
pub(crate) fn write_digits<W: Write>(octets: &[u8], writer: &mut W) -> io::Result<()>
    requires { length octets.now ≤ CHUNK }
    ensures { Writes W.contents writer.old writer.new result (encode_lower octets.now) }
{
    let mut room = [0u8; 2 * CHUNK];
    let digits = &mut room[..2 * octets.len()];
    // There is just the room that the digits need.
    let _ = hex::encode_to_slice(octets, digits);
    writer.write_all(digits)
}

/// Writes the octets in hexadecimal, lower case.
pub fn write_hex<W: Write>(octets: &[u8], writer: &mut W) -> io::Result<()>
    ensures { Writes W.contents writer.old writer.new result (encode_lower octets.now) }
{
    let mut rest = octets;
    while !rest.is_empty() {
        let (chunk, others) = rest.split_at(rest.len().min(CHUNK));
        write_digits(chunk, writer)?;
        rest = others;
    }
    Ok(())
}

/// Writes a space and the contents in hexadecimal, if there are any.
pub fn write_contents<W: Write>(contents: &[u8], writer: &mut W) -> io::Result<()>
    ensures { Writes W.contents writer.old writer.new result (shown_contents contents.now) }
{
    if contents.is_empty() {
        return Ok(());
    }
    writer.write_all(b" ")?;
    write_hex(contents, writer)
}

// Whether the octet stands for itself: it prints, and separates nothing in a name.
fn is_plain(octet: u8) -> bool
    ensures { result ≡ prints_as_itself octet }
{
    b' ' <= octet && octet <= b'~' && !matches!(octet, b'\\' | b'/' | b'+' | b'=' | b'#')
}

fn write_octet<W: Write>(octet: u8, writer: &mut W) -> io::Result<()>
    ensures { Writes W.contents writer.old writer.new result (escaped_octet octet) }
{
    if is_plain(octet) {
        return writer.write_all(&[octet]);
    }
    writer.write_all(b"\\")?;
    write_digits(&[octet], writer)
}

/// Writes the octets as text: printable ones as they are, separators and others as a backslash and two digits.
pub(crate) fn write_escaped<W: Write>(octets: &[u8], writer: &mut W) -> io::Result<()>
    ensures { Writes W.contents writer.old writer.new result (escaped octets.now) }
{
    'octets: for octet in octets {
        write_octet(*octet, writer)?;
    }
    Ok(())
}

// A space and the text, if there is any.
pub(crate) fn write_spaced_text<W: Write>(octets: &[u8], writer: &mut W) -> io::Result<()>
    ensures { Writes W.contents writer.old writer.new result (spaced_text octets.now) }
{
    if octets.is_empty() {
        return Ok(());
    }
    writer.write_all(b" ")?;
    write_escaped(octets, writer)
}
