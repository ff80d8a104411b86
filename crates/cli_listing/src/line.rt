//! The lines of lists and of responses.

ghost use Rattle.cli_printing.specs.Written.{Writes};
ghost use Rattle.statements_facts.specs.Answer.{seen_ocsp};
ghost use Rattle.store_listing.specs.Listing.{seen_held_list, seen_held_single};
ghost use Rattle.cli_listing.specs.Found.{found_issuer};
ghost use Rattle.cli_listing.specs.ListingText.{scope_text, held_status_text, window_text, state_text, state_at};
ghost use Rattle.cli_listing.specs.ListingText.{list_head_text, list_line, single_head_text, times_text, held_single_line};

use crate::issuer::write_issuer;
use crate::moment::write_moment_behind;
use crate::number::{write_hex_behind, write_number};
use crate::point::write_point;
use statements_facts::{OcspAnswer, Scope, Status};
use std::io;
use std::io::Write;
use store_listing::{HeldIssuer, HeldList, HeldSingle};

fn write_scope<W: Write>(scope: Scope, writer: &mut W) -> io::Result<()>
    ensures { Writes W.contents writer.old writer.new result (scope_text scope) }
{
    match scope {
        Scope::All => writer.write_all(b" all"),
        Scope::User => writer.write_all(b" user"),
        Scope::Ca => writer.write_all(b" ca"),
    }
}

fn write_status<W: Write>(status: Status, writer: &mut W) -> io::Result<()>
    ensures { Writes W.contents writer.old writer.new result (held_status_text status) }
{
    match status {
        Status::Good => writer.write_all(b" good"),
        Status::Revoked(reason) => write!(writer, " revoked {reason}"),
        Status::Unknown => writer.write_all(b" unknown"),
    }
}

/// From when and until when a statement counts.
fn write_window<W: Write>(from: i64, until: i64, writer: &mut W) -> io::Result<()>
    ensures { Writes W.contents writer.old writer.new result (window_text from until) }
{
    write_moment_behind(" from ", from, writer)?;
    write_moment_behind(" until ", until, writer)
}

/// Whether a statement is in force at a moment.
fn write_state<W: Write>(from: i64, until: i64, moment: i64, writer: &mut W) -> io::Result<()>
    ensures { Writes W.contents writer.old writer.new result (state_text from until moment) }
{
    if moment < from {
        writer.write_all(b" not-yet")
    } else if until < moment {
        writer.write_all(b" lapsed")
    } else {
        writer.write_all(b" current")
    }
}

/// The end of the line, behind whether the statement is in force, if that is asked.
fn write_end<W: Write>(at: Option<i64>, from: i64, until: i64, writer: &mut W) -> io::Result<()>
    ensures { Writes W.contents writer.old writer.new result (state_at at from until) }
{
    if let Some(moment) = at {
        write_state(from, until, moment, writer)?;
    }
    writer.write_all(b"\n")
}

#[tactic(auto, unfolding(crate::specs::ListingText::list_head_text))]
fn write_list_head<W: Write>(
    issuer: Option<&HeldIssuer>,
    list: &HeldList,
    writer: &mut W,
) -> io::Result<()>
    ensures { Writes W.contents writer.old writer.new result
        (list_head_text (found_issuer issuer.entry) (seen_held_list list.now)) }
{
    write_issuer("crl ", issuer, writer)?;
    write_scope(list.scope, writer)?;
    write_point(issuer, writer)?;
    write_number(" number ", list.head.number, writer)
}

/// Writes the line of a list.
pub(crate) fn write_list<W: Write>(
    issuer: Option<&HeldIssuer>,
    list: &HeldList,
    at: Option<i64>,
    writer: &mut W,
) -> io::Result<()>
    ensures { Writes W.contents writer.old writer.new result
        (list_line (found_issuer issuer.entry) at (seen_held_list list.now)) }
{
    write_list_head(issuer, list, writer)?;
    write_window(list.head.from, list.head.until, writer)?;
    write!(writer, " entries {}", list.entries)?;
    write_end(at, list.head.from, list.head.until, writer)
}

fn write_single_head<W: Write>(
    issuer: Option<&HeldIssuer>,
    single: &HeldSingle,
    writer: &mut W,
) -> io::Result<()>
    ensures { Writes W.contents writer.old writer.new result
        (single_head_text (found_issuer issuer.entry) (seen_held_single single.now)) }
{
    write_issuer("ocsp ", issuer, writer)?;
    write_hex_behind(" ", single.name_hash.as_slice(), writer)?;
    write_hex_behind(" serial ", single.serial.as_slice(), writer)
}

fn write_times<W: Write>(said: &OcspAnswer, writer: &mut W) -> io::Result<()>
    ensures { Writes W.contents writer.old writer.new result (times_text (seen_ocsp said.now)) }
{
    write_moment_behind(" this ", said.this_update, writer)?;
    write_moment_behind(" produced ", said.produced_at, writer)?;
    write_window(said.from, said.until, writer)
}

/// Writes the line of what a response says of a certificate.
pub(crate) fn write_single<W: Write>(
    issuer: Option<&HeldIssuer>,
    single: &HeldSingle,
    at: Option<i64>,
    writer: &mut W,
) -> io::Result<()>
    ensures { Writes W.contents writer.old writer.new result
        (held_single_line (found_issuer issuer.entry) at (seen_held_single single.now)) }
{
    write_single_head(issuer, single, writer)?;
    write_times(&single.said, writer)?;
    write_status(single.said.status, writer)?;
    write_end(at, single.said.from, single.said.until, writer)
}
