//! What is put into the tables of a store and looked up there, each in a transaction of its own. `false` and `None` are answered
//! where that did not succeed.

use asn::Number20;
use sqlite::{Alter, Connection};
use statements_facts::{
    Issuer, Listed, NameKey, OcspAnswer, Profile, RevokedSerials, Scope, Single,
};
use std::alloc::Global;
use store_maps::{crl, ocsp};
use store_rows::{
    Head, ListKey, add_issuer, find_issuer, make_tables, replace_crl, replace_entries,
    replace_single,
};
use store_sql::StoreFault;

/// An issuer whose name is the same for all, and whose key is told by these octets.
pub fn issuer(alloc: Global, key_info: &[u8]) -> Option<Issuer<'_>> {
    let name = Vec::from_slice(alloc, b"name").ok()?;
    Some(Issuer {
        name: NameKey::from_octets(name),
        key_info,
    })
}

pub fn make<S: Alter>(conn: &mut Connection<S>) -> bool {
    if !conn.is_autocommit() {
        return false;
    }
    let mut tx = conn.transaction();
    match make_tables(&mut tx, Profile::Stated) {
        Ok(()) => tx.commit().is_ok(),
        Err(_) => false,
    }
}

pub fn add<S: Alter>(conn: &mut Connection<S>, issuer: &Issuer<'_>) -> bool {
    if !conn.is_autocommit() {
        return false;
    }
    let mut tx = conn.transaction();
    match add_issuer(&mut tx, issuer) {
        Ok(()) => tx.commit().is_ok(),
        Err(_) => false,
    }
}

/// The issuer's id.
pub fn found<S: Alter>(conn: &mut Connection<S>, issuer: &Issuer<'_>) -> Option<u32> {
    if !conn.is_autocommit() {
        return None;
    }
    let mut tx = conn.transaction();
    match find_issuer(&mut tx, issuer) {
        Ok(id) => id,
        Err(_) => None,
    }
}

fn head(number: u8) -> Head {
    let mut octets = [0; 20];
    octets[19] = number;
    Head {
        number: Number20::from_octets(octets),
        from: -10,
        until: 20,
    }
}

pub fn put_list<S: Alter>(conn: &mut Connection<S>, list: &ListKey, number: u8) -> bool {
    if !conn.is_autocommit() {
        return false;
    }
    let mut tx = conn.transaction();
    match replace_crl(&mut tx, list.issuer, list.scope, &head(number)) {
        Ok(()) => tx.commit().is_ok(),
        Err(_) => false,
    }
}

fn put_revoked<S: Alter>(
    conn: &mut Connection<S>,
    list: &ListKey,
    revoked: &RevokedSerials<'_>,
) -> bool {
    if !conn.is_autocommit() || list.issuer >= 536_870_911 {
        return false;
    }
    let mut tx = conn.transaction();
    match replace_entries(&mut tx, list, revoked) {
        Ok(()) => tx.commit().is_ok(),
        Err(_) => false,
    }
}

fn revoked<'a>(alloc: Global, listed: &[Listed<'a>]) -> Option<RevokedSerials<'a>> {
    let all = Vec::from_slice(alloc, listed).ok()?;
    RevokedSerials::of_entries(all).ok()
}

pub fn put_entries<S: Alter>(
    alloc: Global,
    conn: &mut Connection<S>,
    list: &ListKey,
    listed: &[Listed<'_>],
) -> bool {
    match revoked(alloc, listed) {
        Some(revoked) => put_revoked(conn, list, &revoked),
        None => false,
    }
}

pub fn put_single<S: Alter>(conn: &mut Connection<S>, id: u32, single: &Single<'_>) -> bool {
    if !conn.is_autocommit() {
        return false;
    }
    let mut tx = conn.transaction();
    match replace_single(&mut tx, id, single) {
        Ok(()) => tx.commit().is_ok(),
        Err(_) => false,
    }
}

/// The number of the list, and the reason; 0 and 255 where there is none.
pub fn listed<S: Alter>(
    conn: &mut Connection<S>,
    issuer: &Issuer<'_>,
    scope: Scope,
    serial: &[u8],
) -> Option<Result<(u8, u8), StoreFault>> {
    if !conn.is_autocommit() {
        return None;
    }
    let mut tx = conn.transaction();
    match crl(&mut tx, issuer, scope, serial) {
        Ok(None) => Some(Ok((0, 255))),
        Ok(Some(held)) => Some(Ok((held.number.to_octets()[19], held.reason.unwrap_or(255)))),
        Err(fault) => Some(Err(fault)),
    }
}

/// What a response said; `None` where it was not asked.
pub fn said<S: Alter>(
    conn: &mut Connection<S>,
    issuer: &Issuer<'_>,
    single: &Single<'_>,
) -> Option<Result<Option<OcspAnswer>, StoreFault>> {
    if !conn.is_autocommit() {
        return None;
    }
    let mut tx = conn.transaction();
    Some(ocsp(&mut tx, issuer, &single.name_hash, single.serial))
}
