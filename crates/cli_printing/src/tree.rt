//! A DER value as lines of text, a line for each value in it.
ghost use Rattle.std.specs.Prelude.{◌≡◌, ◌+◌, ◌*◌, ◌<◌, ◌≤◌, ◌^◌, ℕ, [], ◌∷◌, length, OnOk, IfErr, replicate};
ghost use Rattle.std.specs.Io.KnownBytes.{Appends};
ghost use Rattle.hex.specs.Hex.{encode_lower};
ghost use Rattle.asn.specs.Value.{Value, Values};
ghost use Rattle.asn.specs.Encoding.{EncodesAllAt, Encodes};
ghost use Rattle.asn.specs.Place.{remaining};
ghost use Rattle.asn.specs.Shows.{Shows};
ghost use Rattle.cli_printing.specs.Printed.{indent, shown_contents, line, lines_of, lines_of_all};
ghost use Rattle.cli_printing.specs.Unwritten.{IsUnwritten};
ghost use Rattle.cli_printing.specs.Written.{Writes};

use crate::text::{write_contents, write_digits};
use asn::{Cursor, Fault, Tlv, whole};
use std::io;
use std::io::Write;
use thiserror::Error;

/// Why a value's lines were not written.
#[derive(Clone, Copy, Debug, PartialEq, Eq, Error)]
pub enum TreeFault {
    /// The octets are not DER; nothing was written.
    #[error("not DER: {0}")]
    Refused(Fault),
    /// The writer answered an error; some of the lines may have been written.
    #[error("cannot write")]
    Io,
}

// Two spaces for each of 32 levels: a value has fewer above it.
const SPACES: &[u8; 64] = b"                                                                ";

fn write_indent<W: Write>(level: usize, writer: &mut W) -> io::Result<()>
    ensures { Writes W.contents writer.old writer.new result (indent level) }
{
    for _ in 0..level / 32 {
        writer.write_all(SPACES)?;
    }
    writer.write_all(&SPACES[..2 * (level % 32)])
}

// The line of one value, of whose contents `shown` is to be seen.
fn write_line<W: Write>(
    level: usize,
    identifier: u8,
    size: usize,
    shown: &[u8],
    writer: &mut W,
) -> io::Result<()>
    ensures { Writes W.contents writer.old writer.new result
        (line level identifier size (shown_contents shown.now)) }
{
    write_indent(level, writer)?;
    write_digits(&[identifier], writer)?;
    write!(writer, " {size}")?;
    write_contents(shown, writer)?;
    writer.write_all(b"\n")
}

// The lines of a value and of those inside.
#[cycle(write)]
fn write_value<W: Write>(level: usize, tlv: Tlv<'_>, writer: &mut W) -> io::Result<()>
    requires { level + length tlv.whole.now < 2 ^ 64 }
    ensures { OnOk result ((depth : ℕ) (value : Value)
        → Shows depth value tlv.entry
        → Appends (W.contents writer.old) (W.contents writer.new) (lines_of level value)) }
{
    match tlv.inside() {
        None => write_line(level, tlv.tag, tlv.body.len(), tlv.body, writer),
        Some(members) => {
            write_line(level, tlv.tag, tlv.body.len(), &[], writer)?;
            write_members(level + 1, members, writer)
        }
    }
}

// The lines of the values that a cursor has left.
#[cycle(write)]
fn write_members<W: Write>(level: usize, members: Cursor<'_>, writer: &mut W) -> io::Result<()>
    requires { level + length (remaining members).octets < 2 ^ 64 }
    ensures { OnOk result ((depth : ℕ) (values : Values)
        → EncodesAllAt depth (remaining members.entry).octets values
        → Appends (W.contents writer.old) (W.contents writer.new) (lines_of_all level values)) }
{
    let mut members = members;
    while let Some(tlv) = members.next() {
        write_value(level, tlv, writer)?;
    }
    Ok(())
}

/// Writes the DER value that the octets are, a line for each value in it: two spaces for each level below the outermost,
/// the identifier octet in hexadecimal, the length of the contents, and for a primitive value the contents in
/// hexadecimal. It takes no memory, and writes only once all octets are accepted.
pub fn tree_to<W: Write>(octets: &[u8], writer: &mut W) -> Result<(), TreeFault>
    ensures written { OnOk result ((value : Value) × Encodes octets.now value
        × Appends (W.contents writer.old) (W.contents writer.new) (lines_of 0 value)) }
    ensures only { OnOk result ((value : Value) → Encodes octets.now value
        → Appends (W.contents writer.old) (W.contents writer.new) (lines_of 0 value)) }
    ensures refused { IfErr result (λ fault.
        IsUnwritten octets.now fault (writer.new ≡ writer.old)) }
{
    let tlv = whole(octets).map_err(TreeFault::Refused)?;
    write_value(0, tlv, writer).map_err(|_| TreeFault::Io)
}
