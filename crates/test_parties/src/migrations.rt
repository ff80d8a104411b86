//! A store of version 1 with many lists.

use crate::stores::{Disks, adopted_from, empty, reason};
use sqlite::types::ValueRef;
use sqlite::{Connection, Files, Options, Transaction};
use sqlite_disk::Memory;
use statements_facts::{Issuer, NameKey};
use std::alloc::Global;
use store_migration::version_1_tables;

const LISTS: i64 = 12_000;

/// An issuer, its list, and an entry of the list.
fn put_list(tx: &mut Transaction<'_, Disks>, issuer: i64) -> Option<()> {
    let key = issuer.to_be_bytes();
    let both = [ValueRef::Int(issuer), ValueRef::Blob(&key)];
    tx.execute(
        "INSERT INTO issuers (id, name, spki) VALUES (?1, ?2, ?2)",
        &both,
    )
    .ok()?;
    let id = [ValueRef::Int(issuer)];
    tx.execute(
        "INSERT INTO crls (issuer, number, since, until) \
            VALUES (?1, x'0000000000000000000000000000000000000005', 10, 20)",
        &id,
    )
    .ok()?;
    tx.execute(
        "INSERT INTO entries (issuer, serial, reason) VALUES (?1, x'05', 1)",
        &id,
    )
    .ok()?;
    Some(())
}

fn put_lists(tx: &mut Transaction<'_, Disks>) -> Option<()> {
    for list in 0..LISTS {
        put_list(tx, list + 1)?;
    }
    Some(())
}

fn fill(conn: &mut Connection<Disks>) -> Option<()> {
    conn.execute_batch(version_1_tables()).ok()?;
    conn.execute_batch("INSERT INTO meta (id, version) VALUES (1, 1);")
        .ok()?;
    if !conn.is_autocommit() {
        return None;
    }
    let mut tx = conn.transaction();
    put_lists(&mut tx)?;
    tx.commit().ok()
}

/// The files of a store of version 1 with these lists.
fn filled(alloc: Global) -> Files<Memory> {
    let files = empty(alloc);
    if !files.may_be_used() {
        return files;
    }
    match Connection::open_files(alloc, files, Options::new(7)) {
        Ok(mut conn) => {
            let _is_filled = fill(&mut conn).is_some();
            conn.into_store().close()
        }
        Err((_error, left)) => left.into_files(),
    }
}

/// An issuer of that key, whose name has the same octets.
fn issuer(alloc: Global, key: &[u8]) -> Option<Issuer<'_>> {
    let name = Vec::from_slice(alloc, key).ok()?;
    Some(Issuer {
        name: NameKey::from_octets(name),
        key_info: key,
    })
}

/// The reason that the last list gives behind the migration.
fn migrated(alloc: Global) -> Option<Option<u8>> {
    let key = LISTS.to_be_bytes();
    let issuer = issuer(alloc, &key)?;
    let mut store = adopted_from(alloc, filled(alloc))?;
    reason(&mut store, &issuer, b"\x05")
}

#[test]
fn lists_of_12_000_issuers(rt: HostRuntime) {
    assert_eq!(rt; migrated(rt.alloc()), Some(Some(1)));
}
