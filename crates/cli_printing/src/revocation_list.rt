//! What a revocation list says, a line each.
ghost use Rattle.std.specs.Prelude.{◌≡◌};
ghost use Rattle.std.specs.List.{flat_map};
ghost use Rattle.statements_crl.specs.CertificateList.{seen_list};
ghost use Rattle.statements_crl.specs.Entry.{entries_left, seen_entry};
ghost use Rattle.cli_printing.specs.CrlText.{covered_lines, crl_text, entry_line, number_lines, opening_lines, scope_lines, span_lines, crl_title};
ghost use Rattle.cert_points.specs.CompleteNames.{names_if_any};
ghost use Rattle.cli_printing.specs.GeneralText.{point_line};
ghost use Rattle.cli_printing.specs.Written.{Writes};

use crate::certificate::{write_named, write_octets};
use crate::general::write_points;
use crate::text::write_hex;
use cert_points::GeneralNames;
use statements_crl::{Crl, Entries, Entry, Scope};
use std::io;
use std::io::Write;

fn write_scope<W: Write>(scope: Scope, writer: &mut W) -> io::Result<()>
    ensures { Writes W.contents writer.old writer.new result (scope_lines scope) }
{
    match scope {
        Scope::All => Ok(()),
        Scope::User => writer.write_all(b"scope user\n"),
        Scope::Ca => writer.write_all(b"scope ca\n"),
    }
}

// A line for each name of the point where the list is published.
fn write_point_lines<W: Write>(points: &Option<GeneralNames<'_>>, writer: &mut W) -> io::Result<()>
    ensures { Writes W.contents writer.old writer.new result
        (flat_map point_line (names_if_any points.now)) }
{
    match points {
        Some(names) => write_points(names.members, writer),
        None => Ok(()),
    }
}

#[tactic(auto, unfolding(crate::specs::CrlText::covered_lines))]
fn write_covered<W: Write>(list: &Crl<'_>, writer: &mut W) -> io::Result<()>
    ensures { Writes W.contents writer.old writer.new result (covered_lines (seen_list list.now)) }
{
    write_scope(list.scope, writer)?;
    write_point_lines(&list.points, writer)
}

fn write_span<W: Write>(from: i64, until: i64, writer: &mut W) -> io::Result<()>
    ensures { Writes W.contents writer.old writer.new result (span_lines from until) }
{
    writeln!(writer, "from {from}")?;
    writeln!(writer, "until {until}")
}

#[tactic(auto, unfolding(crate::specs::CrlText::crl_title))]
fn write_title<W: Write>(writer: &mut W) -> io::Result<()>
    ensures { Writes W.contents writer.old writer.new result crl_title }
{
    writer.write_all(b"crl\n")
}

fn write_opening<W: Write>(list: &Crl<'_>, writer: &mut W) -> io::Result<()>
    ensures { Writes W.contents writer.old writer.new result (opening_lines (seen_list list.now)) }
{
    write_title(writer)?;
    write_named("issuer", &list.issuer, writer)
}

fn write_number<W: Write>(list: &Crl<'_>, writer: &mut W) -> io::Result<()>
    ensures { Writes W.contents writer.old writer.new result (number_lines (seen_list list.now)) }
{
    write_octets("number", list.number.contents, writer)?;
    write_covered(list, writer)?;
    write_span(list.this_update, list.next_update, writer)
}

fn write_entry<W: Write>(entry: Entry<'_>, writer: &mut W) -> io::Result<()>
    ensures { Writes W.contents writer.old writer.new result (entry_line (seen_entry entry.entry)) }
{
    writer.write_all(b"revoked ")?;
    write_hex(entry.serial, writer)?;
    writeln!(writer, " {}", entry.reason)
}

fn write_entries<W: Write>(entries: Entries<'_>, writer: &mut W) -> io::Result<()>
    ensures { Writes W.contents writer.old writer.new result
        (flat_map entry_line (entries_left entries.entry)) }
{
    let mut others = entries;
    while let Some(entry) = others.next() {
        write_entry(entry, writer)?;
    }
    Ok(())
}

/// Writes what the revocation list says, a line each: its fields, and then its entries as they stand. The entries are read anew
/// one by one, so that it takes no memory.
pub fn crl_to<W: Write>(list: &Crl<'_>, writer: &mut W) -> io::Result<()>
    ensures { Writes W.contents writer.old writer.new result (crl_text (seen_list list.now)) }
{
    write_opening(list, writer)?;
    write_number(list, writer)?;
    write_entries(list.revoked, writer)
}
