//! Queries and statements from texts. `None` is answered if a text cannot be read, or there is no memory for it.

use path::Query;
use statements::Statement;
use std::alloc::Global;
use vectors::{certificate, revocation_list};
use vectors_ocsp::ocsp_response;

/// 2025-06-15T00:00:00Z
pub const MIDDLE: i64 = 1_749_945_600;

/// A list or a response, and the certificates that come with a response; or octets that are neither, if the text is empty.
pub type StatementText = (&'static str, &'static [&'static str]);

/// The octets of the certificates that the texts ask for.
pub fn octets_of(alloc: Global, texts: &[&str]) -> Option<Vec<Vec<u8>>> {
    let mut all = Vec::new(alloc);
    for text in texts {
        all.push(certificate(alloc, text).ok()?).ok()?;
    }
    Some(all)
}

/// The octets of the statement.
fn statement_of(alloc: Global, statement: StatementText) -> Option<Vec<u8>> {
    let (text, certificates) = statement;
    if text.is_empty() {
        Vec::from_slice(alloc, b"\x30\x00").ok()
    } else if text.starts_with("ocsp") {
        ocsp_response(alloc, text, certificates).ok()
    } else {
        revocation_list(alloc, text).ok()
    }
}

/// The octets of the statements.
pub fn statements_of(alloc: Global, statements: &[StatementText]) -> Option<Vec<Vec<u8>>> {
    let mut all = Vec::new(alloc);
    for statement in statements {
        all.push(statement_of(alloc, *statement)?).ok()?;
    }
    Some(all)
}

/// The texts of octets.
fn slices_of(alloc: Global, all: &[Vec<u8>]) -> Option<Vec<&[u8]>> {
    let mut slices = Vec::new(alloc);
    for octets in all {
        slices.push(octets.as_slice()).ok()?;
    }
    Some(slices)
}

/// The query about the certificates, the first being the anchor.
pub fn query_of(alloc: Global, certificates: &[Vec<u8>], moment: i64) -> Option<Query<'_>> {
    let (anchor, path) = certificates.split_first()?;
    let path = slices_of(alloc, path)?;
    Query::read(alloc, anchor, &path, moment, None).ok()
}

/// The statements that the octets are.
pub fn read_all(alloc: Global, all: &[Vec<u8>]) -> Option<Vec<Statement<'_>>> {
    let mut read = Vec::new(alloc);
    for octets in all {
        read.push(Statement::read(alloc, octets).ok()?).ok()?;
    }
    Some(read)
}
