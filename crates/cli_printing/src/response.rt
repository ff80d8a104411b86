//! What an OCSP response says, a line each.
ghost use Rattle.std.specs.Prelude.{◌≡◌};
ghost use Rattle.std.specs.List.{flat_map};
ghost use Rattle.statements_ocsp.specs.OcspResponse.{seen_response};
ghost use Rattle.statements_ocsp.specs.Responder.{seen_responder};
ghost use Rattle.statements_ocsp.specs.Single.{seen_single_response, singles_left};
ghost use Rattle.cli_printing.specs.ResponseText.{head_lines, key_mark, next_text, produced_line, responder_line, response_text, single_line, status_text, response_title};
ghost use Rattle.cli_printing.specs.Written.{Writes};

use crate::certificate::write_named;
use crate::text::write_hex;
use statements_ocsp::{CertStatus, ResponderId, Response, SingleResponse, SingleResponses};
use std::io;
use std::io::Write;

#[tactic(auto, unfolding(crate::specs::ResponseText::response_title))]
fn write_title<W: Write>(writer: &mut W) -> io::Result<()>
    ensures { Writes W.contents writer.old writer.new result response_title }
{
    writer.write_all(b"response\n")
}

#[tactic(auto, unfolding(crate::specs::ResponseText::key_mark))]
fn write_key_mark<W: Write>(writer: &mut W) -> io::Result<()>
    ensures { Writes W.contents writer.old writer.new result key_mark }
{
    writer.write_all(b"responder #")
}

fn write_responder<W: Write>(responder: &ResponderId<'_>, writer: &mut W) -> io::Result<()>
    ensures { Writes W.contents writer.old writer.new result
        (responder_line (seen_responder responder.now)) }
{
    match responder {
        ResponderId::ByName(name) => write_named("responder", name, writer),
        ResponderId::ByKey(hash) => {
            write_key_mark(writer)?;
            write_hex(hash, writer)?;
            writer.write_all(b"\n")
        }
    }
}

fn write_status<W: Write>(status: CertStatus, writer: &mut W) -> io::Result<()>
    ensures { Writes W.contents writer.old writer.new result (status_text status) }
{
    match status {
        CertStatus::Good => writer.write_all(b" good"),
        CertStatus::Revoked(reason) => write!(writer, " revoked {reason}"),
        CertStatus::Unknown => writer.write_all(b" unknown"),
    }
}

fn write_next<W: Write>(next_update: Option<i64>, writer: &mut W) -> io::Result<()>
    ensures { Writes W.contents writer.old writer.new result (next_text next_update) }
{
    match next_update {
        None => writer.write_all(b" -\n"),
        Some(moment) => writeln!(writer, " {moment}"),
    }
}

fn write_single<W: Write>(single: &SingleResponse<'_>, writer: &mut W) -> io::Result<()>
    ensures { Writes W.contents writer.old writer.new result
        (single_line (seen_single_response single.now)) }
{
    writer.write_all(b"single ")?;
    write_hex(single.id.serial, writer)?;
    write_status(single.status, writer)?;
    write!(writer, " {}", single.this_update)?;
    write_next(single.next_update, writer)
}

fn write_singles<W: Write>(singles: SingleResponses<'_>, writer: &mut W) -> io::Result<()>
    ensures { Writes W.contents writer.old writer.new result
        (flat_map single_line (singles_left singles.entry)) }
{
    let mut others = singles;
    while let Some(single) = others.next() {
        write_single(&single, writer)?;
    }
    Ok(())
}

fn write_head<W: Write>(response: &Response<'_>, writer: &mut W) -> io::Result<()>
    ensures { Writes W.contents writer.old writer.new result
        (head_lines (seen_response response.now)) }
{
    write_title(writer)?;
    write_responder(&response.responder, writer)?;
    writeln!(writer, "produced {}", response.produced_at)
}

/// Writes what the response says, a line each: who answers and when, and then its single responses, which are read anew one by one. It
/// takes no memory.
pub fn response_to<W: Write>(response: &Response<'_>, writer: &mut W) -> io::Result<()>
    ensures { Writes W.contents writer.old writer.new result
        (response_text (seen_response response.now)) }
{
    write_head(response, writer)?;
    write_singles(response.responses, writer)
}
