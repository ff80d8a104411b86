//! Which tables are those of a store.

use crate::steps::Step::{Execute, Make, Tables};
use crate::steps::{Step, undone};
use std::test::Fail;
use store_sql::Origin;

/// The tables of version 1, as an earlier x509check made them.
const VERSION_1: &str =
    "CREATE TABLE meta (id INTEGER PRIMARY KEY, version INTEGER NOT NULL) STRICT; CREATE TABLE issuers (id INTEGER PRIMARY KEY, name BLOB NOT NULL, spki BLOB NOT NULL, UNIQUE (name, spki)) STRICT; CREATE TABLE ocsp (issuer INTEGER NOT NULL, name_hash BLOB NOT NULL, serial BLOB NOT NULL, this_update INTEGER NOT NULL, produced_at INTEGER NOT NULL, since INTEGER NOT NULL, until INTEGER NOT NULL, status INTEGER NOT NULL, reason INTEGER NOT NULL, PRIMARY KEY (issuer, name_hash, serial)) STRICT; CREATE TABLE crls (issuer INTEGER PRIMARY KEY, number BLOB NOT NULL, since INTEGER NOT NULL, until INTEGER NOT NULL) STRICT; CREATE TABLE entries (issuer INTEGER NOT NULL, serial BLOB NOT NULL, reason INTEGER NOT NULL, PRIMARY KEY (issuer, serial)) STRICT;";

/// What version 2 adds to them.
const VERSION_2: &str =
    "CREATE TABLE scoped_crls (issuer INTEGER NOT NULL, scope INTEGER NOT NULL, number BLOB NOT NULL, since INTEGER NOT NULL, until INTEGER NOT NULL, PRIMARY KEY (issuer, scope)) STRICT; CREATE TABLE scoped_entries (id INTEGER PRIMARY KEY, issuer INTEGER NOT NULL, scope INTEGER NOT NULL, serial BLOB NOT NULL, reason INTEGER NOT NULL) STRICT;";

const NEW: &[Step] = &[Make, Tables(Some(Origin::Made), false, false)];

const EMPTY: &[Step] = &[Tables(None, false, true)];

const OLD: &[Step] = &[
    Execute(VERSION_1),
    Tables(None, true, false),
    Execute(VERSION_2),
    Tables(Some(Origin::Migrated), false, false),
];

const OTHER: &[Step] = &[
    Make,
    Execute("CREATE TABLE note (id INTEGER PRIMARY KEY) STRICT"),
    Tables(None, false, false),
];

#[test]
fn a_new_store(rt: HostRuntime) -> Result<(), Fail> {
    assert!(rt; undone(rt.alloc(), NEW).is_none());
    Ok(())
}

#[test]
fn an_empty_database(rt: HostRuntime) -> Result<(), Fail> {
    assert!(rt; undone(rt.alloc(), EMPTY).is_none());
    Ok(())
}

#[test]
fn the_tables_of_version_1(rt: HostRuntime) -> Result<(), Fail> {
    assert!(rt; undone(rt.alloc(), OLD).is_none());
    Ok(())
}

#[test]
fn tables_of_another_program(rt: HostRuntime) -> Result<(), Fail> {
    assert!(rt; undone(rt.alloc(), OTHER).is_none());
    Ok(())
}
