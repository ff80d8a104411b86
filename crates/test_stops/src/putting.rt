//! Statements of one issuer, as they are put into a store and found there.

use asn::Number20;
use sqlite::{Alter, Connection};
use statements_facts::{
    CrlFacts, Facts, Issuer, Listed, NameKey, OcspFacts, RevokedSerials, Scope, Single, Singles,
    Status,
};
use std::alloc::Global;
use store::{look_up_crl, look_up_ocsp};
use store_sql::StoreFault;
use store_taking::put;

/// What a list or a response of the issuer says.
#[derive(Clone, Copy)]
pub enum Statement {
    /// A list of this number, and what it revokes.
    List(u8, &'static [Listed<'static>]),
    Response(&'static [Single<'static>]),
}

/// What is held of a serial number: the last octet of the list's number and the reason, 0 and 255 where there is none, and what a
/// response said.
pub type Row = (&'static [u8], (u8, u8), Option<Status>);

/// The hash of the issuer's name, as certificates spell it.
pub const NAME_HASH: [u8; 20] = [0x68; 20];

fn issuer(alloc: Global) -> Option<Issuer<'static>> {
    let name = Vec::from_slice(alloc, b"name").ok()?;
    Some(Issuer {
        name: NameKey::from_octets(name),
        key_info: b"key",
    })
}

fn list(alloc: Global, number: u8, listed: &[Listed<'static>]) -> Option<Facts<'static>> {
    let mut octets = [0; 20];
    octets[19] = number;
    let entries = Vec::from_slice(alloc, listed).ok()?;
    Some(Facts::Crl(CrlFacts {
        issuer: issuer(alloc)?,
        others: Vec::new(alloc),
        scope: Scope::All,
        number: Number20::from_octets(octets),
        from: -10,
        until: 20,
        revoked: RevokedSerials::of_entries(entries).ok()?,
    }))
}

fn response(alloc: Global, singles: &[Single<'static>]) -> Option<Facts<'static>> {
    let singles = Vec::from_slice(alloc, singles).ok()?;
    Some(Facts::Ocsp(OcspFacts {
        issuer: issuer(alloc)?,
        singles: Singles::from_list(singles)?,
    }))
}

/// The statement is put.
pub fn puts<S: Alter>(
    alloc: Global,
    conn: &mut Connection<S>,
    statement: Statement,
) -> Result<(), StoreFault> {
    let facts = match statement {
        Statement::List(number, listed) => list(alloc, number, listed),
        Statement::Response(singles) => response(alloc, singles),
    };
    match facts {
        Some(facts) => put(conn, &facts).map(|_| ()),
        None => Err(StoreFault::Memory),
    }
}

/// The list's number and reason.
fn listed<S: Alter>(
    conn: &mut Connection<S>,
    issuer: &Issuer<'_>,
    serial: &[u8],
) -> Result<(u8, u8), StoreFault> {
    if !conn.is_autocommit() {
        return Err(StoreFault::Schema);
    }
    match look_up_crl(conn, issuer, Scope::All, serial) {
        Ok(None) => Ok((0, 255)),
        Ok(Some(held)) => Ok((held.number.to_octets()[19], held.reason.unwrap_or(255))),
        Err(fault) => Err(fault),
    }
}

/// What a response said.
fn said<S: Alter>(
    conn: &mut Connection<S>,
    issuer: &Issuer<'_>,
    serial: &[u8],
) -> Result<Option<Status>, StoreFault> {
    if !conn.is_autocommit() {
        return Err(StoreFault::Schema);
    }
    match look_up_ocsp(conn, issuer, &NAME_HASH, serial) {
        Ok(said) => Ok(said.map(|said| said.status)),
        Err(fault) => Err(fault),
    }
}

fn tells_of<S: Alter>(
    conn: &mut Connection<S>,
    issuer: &Issuer<'_>,
    row: &Row,
) -> Result<(), StoreFault> {
    let (serial, list, status) = *row;
    if listed(conn, issuer, serial)? == list && said(conn, issuer, serial)? == status {
        Ok(())
    } else {
        Err(StoreFault::Schema)
    }
}

/// These are found; 72 if something else is.
pub fn tells<S: Alter>(
    alloc: Global,
    conn: &mut Connection<S>,
    rows: &[Row],
) -> Result<(), StoreFault> {
    let Some(issuer) = issuer(alloc) else {
        return Err(StoreFault::Memory);
    };
    for row in rows {
        tells_of(conn, &issuer, row)?;
    }
    Ok(())
}
