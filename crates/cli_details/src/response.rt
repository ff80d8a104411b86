//! Further lines of an OCSP response.

use crate::algorithm::write_algorithm_line;
use crate::extension::{next_with, write_extensions};
use crate::moment::write_moment_line;
use crate::value_fault::{Misplaced, Written, or_octets};
use asn::{Cursor, GENERALIZED_TIME, SEQUENCE, Tlv};
use cli_printing::write_octets;
use statements_ocsp::{Certs, Response};
use std::alloc::{AllocError, Global};
use std::io;
use std::io::Write;

// The tag of extensions in the signed part.
const EXTENSIONS: u8 = 0xA1;

// The tag of revoked, with a RevokedInfo.
const REVOKED: u8 = 0xA1;

// A line of a GeneralizedTime.
fn write_time_line(word: &str, value: Tlv<'_>, text: &mut Vec<u8>) -> Written {
    value.is_a(GENERALIZED_TIME, Misplaced)?;
    write_moment_line(word, value.seconds(Misplaced)?, text)?;
    Ok(())
}

// CertID ::= SEQUENCE { .., serialNumber CertificateSerialNumber }
fn write_serial(id: Tlv<'_>, text: &mut Vec<u8>) -> Written {
    id.is_a(SEQUENCE, Misplaced)?;
    let mut members = id.members();
    members.next_or(Misplaced)?;
    members.next_or(Misplaced)?;
    members.next_or(Misplaced)?;
    write_octets("dates", members.next_or(Misplaced)?.body, text)?;
    Ok(())
}

// RevokedInfo ::= SEQUENCE { revocationTime GeneralizedTime, .. }
fn write_status(status: Tlv<'_>, text: &mut Vec<u8>) -> Written {
    match status.inside() {
        Some(mut members) if status.tag == REVOKED => {
            write_time_line("  revoked", members.next_or(Misplaced)?, text)
        }
        _ => Ok(()),
    }
}

// SingleResponse ::= SEQUENCE { certID CertID, certStatus CertStatus, thisUpdate GeneralizedTime, nextUpdate [0] EXPLICIT GeneralizedTime
// OPTIONAL, .. }
fn write_single(value: Tlv<'_>, text: &mut Vec<u8>) -> Written {
    value.is_a(SEQUENCE, Misplaced)?;
    let mut members = value.members();
    write_serial(members.next_or(Misplaced)?, text)?;
    write_status(members.next_or(Misplaced)?, text)?;
    write_time_line("  this-update", members.next_or(Misplaced)?, text)?;
    if let Some(explicit) = members.optional(0xA0) {
        let next_update = explicit.members().next_or(Misplaced)?;
        write_time_line("  next-update", next_update, text)?;
    }
    Ok(())
}

fn write_singles(singles: Cursor<'_>, text: &mut Vec<u8>) -> io::Result<()> {
    let mut singles = singles;
    while let Some(single) = singles.next() {
        let start = text.len();
        let written = write_single(single, text);
        or_octets(written, "dates unreadable", single.whole, start, text)?;
    }
    Ok(())
}

// ResponseData ::= SEQUENCE { .., responses SEQUENCE OF SingleResponse, responseExtensions [1] EXPLICIT Extensions OPTIONAL }
fn write_data(alloc: Global, members: Cursor<'_>, text: &mut Vec<u8>) -> io::Result<()> {
    let mut members = members;
    if let Some(responses) = next_with(SEQUENCE, &mut members) {
        if let Some(singles) = responses.inside() {
            write_singles(singles, text)?;
        }
    }
    write_extensions(alloc, members.optional(EXTENSIONS), text)
}

fn count_of(certs: Certs<'_>) -> usize {
    let mut others = certs;
    let mut count = 0usize;
    while let Some(_) = others.next() {
        count = count.saturating_add(1);
    }
    count
}

fn write_response(alloc: Global, response: &Response<'_>, text: &mut Vec<u8>) -> io::Result<()> {
    let count = count_of(response.certs);
    write_algorithm_line(&response.algorithm, text)?;
    write_moment_line("produced-at", response.produced_at, text)?;
    match response.tbs.inside() {
        Some(members) => write_data(alloc, members, text)?,
        None => write_octets("unreadable", response.tbs.whole, text)?,
    }
    writeln!(text, "certificates {count}")
}

/// The algorithm of the response's signature, the date when it was produced, the dates of each single response, the extensions of the
/// response, and how many values come with it in certs.
pub fn response_details(alloc: Global, response: &Response<'_>) -> Result<Vec<u8>, AllocError> {
    let mut text = Vec::new(alloc);
    match write_response(alloc, response, &mut text) {
        Ok(()) => Ok(text),
        Err(_) => Err(AllocError),
    }
}
