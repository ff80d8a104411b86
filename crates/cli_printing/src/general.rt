//! General names, and the bases of subtrees, as text.
ghost use Rattle.std.specs.Prelude.{◌≡◌, ◌++◌, codes, length};
ghost use Rattle.std.specs.List.{flat_map};
ghost use Rattle.hex.specs.Hex.{encode_lower};
ghost use Rattle.asn.specs.Members.{left, octets_of_each};
ghost use Rattle.names.specs.Bases.{address_range, domain_names};
ghost use Rattle.names.specs.GeneralView.{general_name, subtree_base};
ghost use Rattle.names.specs.NameOctets.{raw_of};
ghost use Rattle.cli_printing.specs.Printed.{shown_contents};
ghost use Rattle.cli_printing.specs.EscapedText.{spaced_text};
ghost use Rattle.cli_printing.specs.NameText.{name_text};
ghost use Rattle.cli_printing.specs.GeneralText.{base_text, domain_text, general_text, mask_octets, other_text, point_line, range_text};
ghost use Rattle.cli_printing.specs.Written.{Writes};

use crate::name::write_name;
use crate::text::{write_contents, write_digits, write_escaped, write_hex, write_spaced_text};
use asn::{Cursor, Tlv};
use names::{Domain, General, IpRange, Name, Subtree};
use std::io;
use std::io::Write;

// Octets that begin with so many ones, and then have zeros.
const BEGUN: [u8; 9] = [0x00, 0x80, 0xC0, 0xE0, 0xF0, 0xF8, 0xFC, 0xFE, 0xFF];

fn write_directory<W: Write>(name: &Name<'_>, writer: &mut W) -> io::Result<()>
    ensures { Writes W.contents writer.old writer.new result
        (codes "dir " ++ name_text (raw_of name.now)) }
{
    writer.write_all(b"dir ")?;
    write_name(name, writer)
}

fn write_dns<W: Write>(name: &[u8], writer: &mut W) -> io::Result<()>
    ensures { Writes W.contents writer.old writer.new result (codes "dns" ++ spaced_text name.now) }
{
    writer.write_all(b"dns")?;
    write_spaced_text(name, writer)
}

fn write_address<W: Write>(address: &[u8], writer: &mut W) -> io::Result<()>
    ensures { Writes W.contents writer.old writer.new result
        (codes "ip" ++ shown_contents address.now) }
{
    writer.write_all(b"ip")?;
    write_contents(address, writer)
}

// Another form: its number and its contents.
fn write_other<W: Write>(number: u8, contents: &[u8], writer: &mut W) -> io::Result<()>
    ensures { Writes W.contents writer.old writer.new result (other_text number contents.now) }
{
    write!(writer, "{number}")?;
    write_contents(contents, writer)
}

/// Writes the general name.
pub fn write_general<W: Write>(name: &General<'_>, writer: &mut W) -> io::Result<()>
    ensures { Writes W.contents writer.old writer.new result
        (general_text (general_name name.now)) }
{
    match name {
        General::Directory(name) => write_directory(name, writer),
        General::Dns(name) => write_dns(name, writer),
        General::Ip(address) => write_address(address, writer),
        General::Other(number, contents) => write_other(*number, contents, writer),
    }
}

// The line of a point's name.
fn write_point<W: Write>(name: Tlv<'_>, writer: &mut W) -> io::Result<()>
    ensures { Writes W.contents writer.old writer.new result (point_line name.entry.whole.now) }
{
    writer.write_all(b"point ")?;
    match General::read(name) {
        Ok(name) => write_general(&name, writer)?,
        Err(_) => write_hex(name.whole, writer)?,
    }
    writer.write_all(b"\n")
}

/// Writes a line for each name of a point.
pub(crate) fn write_points<W: Write>(names: Cursor<'_>, writer: &mut W) -> io::Result<()>
    ensures { Writes W.contents writer.old writer.new result
        (flat_map point_line (octets_of_each (left names.entry).values)) }
{
    let mut others = names;
    while let Some(name) = others.next() {
        write_point(name, writer)?;
    }
    Ok(())
}

// The base of a DNS constraint, as it stands in the certificate.
fn write_domain<W: Write>(domain: &Domain<'_>, writer: &mut W) -> io::Result<()>
    ensures { Writes W.contents writer.old writer.new result
        (domain_text (domain_names domain.now)) }
{
    match domain {
        Domain::Every => writer.write_all(b"dns"),
        Domain::Within(name) => write_dns(name, writer),
        Domain::Below(name) => {
            writer.write_all(b"dns .")?;
            write_escaped(name, writer)
        }
    }
}

// So many octets of a mask that begins with so many ones.
fn write_mask<W: Write>(count: usize, ones: u16, writer: &mut W) -> io::Result<()>
    ensures { Writes W.contents writer.old writer.new result
        (encode_lower (mask_octets count ones)) }
{
    let mut left = ones;
    for _ in 0..count {
        write_digits(&[BEGUN[usize::from(left.min(8))]], writer)?;
        left = left.saturating_sub(8);
    }
    Ok(())
}

fn write_range<W: Write>(range: &IpRange<'_>, writer: &mut W) -> io::Result<()>
    ensures { Writes W.contents writer.old writer.new result
        (range_text (address_range range.now)) }
{
    writer.write_all(b"ip ")?;
    write_hex(range.address, writer)?;
    write_mask(range.address.len(), range.prefix, writer)
}

/// Writes the base of a subtree, as it stands in the certificate.
pub(crate) fn write_base<W: Write>(base: &Subtree<'_>, writer: &mut W) -> io::Result<()>
    ensures { Writes W.contents writer.old writer.new result (base_text (subtree_base base.now)) }
{
    match base {
        Subtree::Directory(name) => write_directory(name, writer),
        Subtree::Dns(domain) => write_domain(domain, writer),
        Subtree::Ip(range) => write_range(range, writer),
        Subtree::Other(number, contents) => write_other(*number, contents, writer),
    }
}
