//! A row that no store writes is refused as one where a database is taken for a store: 72, and no other fault.

use sqlite::Connection;
use sqlite_trees::memory::MemStore;
use statements_facts::Profile;
use std::alloc::Global;
use std::test::Fail;
use store_adoption::{create, inspect_under, read_version_1};
use store_migration::version_1_tables;
use store_sql::StoreFault;

type Memory = Connection<MemStore>;

/// The rows of a store of version 2: a list of CAs with two entries, and a response.
const ROWS: &str = "INSERT INTO issuers (id, name, spki) VALUES (1, x'6e616d65', x'6b6579');
INSERT INTO scoped_crls (issuer, scope, number, since, until) VALUES (1, 2, x'0000000000000000000000000000000000000005', -10, 20);
INSERT INTO scoped_entries (id, issuer, scope, serial, reason) VALUES (25769803776, 1, 2, x'05', 1);
INSERT INTO scoped_entries (id, issuer, scope, serial, reason) VALUES (25769803777, 1, 2, x'06', 4);
INSERT INTO ocsp (issuer, name_hash, serial, this_update, produced_at, since, until, status, reason)
VALUES (1, x'6868686868686868686868686868686868686868', x'05', 1, 2, 3, 4, 1, 3);";

/// What makes a row one that no store writes, and what mends it: each column that is read, just outside its form.
const CHANGES: &[(&str, &str)] = &[
    (
        "DELETE FROM meta",
        "INSERT INTO meta (id, version) VALUES (1, 2)",
    ),
    (
        "INSERT INTO meta (id, version) VALUES (2, 2)",
        "DELETE FROM meta WHERE id = 2",
    ),
    ("UPDATE meta SET id = 0", "UPDATE meta SET id = 1"),
    ("UPDATE meta SET id = 2", "UPDATE meta SET id = 1"),
    (
        "UPDATE meta SET version = -1",
        "UPDATE meta SET version = 2",
    ),
    ("UPDATE meta SET version = 1", "UPDATE meta SET version = 2"),
    ("UPDATE meta SET version = 3", "UPDATE meta SET version = 2"),
    ("UPDATE issuers SET id = -1", "UPDATE issuers SET id = 1"),
    (
        "UPDATE issuers SET id = 536870911",
        "UPDATE issuers SET id = 1",
    ),
    (
        "UPDATE scoped_crls SET issuer = -1",
        "UPDATE scoped_crls SET issuer = 1",
    ),
    (
        "UPDATE scoped_crls SET issuer = 2",
        "UPDATE scoped_crls SET issuer = 1",
    ),
    (
        "UPDATE scoped_crls SET scope = -1",
        "UPDATE scoped_crls SET scope = 2",
    ),
    (
        "UPDATE scoped_crls SET scope = 3",
        "UPDATE scoped_crls SET scope = 2",
    ),
    ("UPDATE scoped_crls SET number = x''", NUMBER),
    (
        "UPDATE scoped_crls SET number = x'00000000000000000000000000000000000005'",
        NUMBER,
    ),
    (
        "UPDATE scoped_crls SET number = x'000000000000000000000000000000000000000005'",
        NUMBER,
    ),
    ("UPDATE ocsp SET issuer = -1", "UPDATE ocsp SET issuer = 1"),
    ("UPDATE ocsp SET issuer = 2", "UPDATE ocsp SET issuer = 1"),
    ("UPDATE ocsp SET status = -1", "UPDATE ocsp SET status = 1"),
    ("UPDATE ocsp SET status = 0", "UPDATE ocsp SET status = 1"),
    ("UPDATE ocsp SET status = 2", "UPDATE ocsp SET status = 1"),
    ("UPDATE ocsp SET status = 3", "UPDATE ocsp SET status = 1"),
    ("UPDATE ocsp SET reason = -1", "UPDATE ocsp SET reason = 3"),
    ("UPDATE ocsp SET reason = 256", "UPDATE ocsp SET reason = 3"),
];

const NUMBER: &str = "UPDATE scoped_crls SET number = x'0000000000000000000000000000000000000005'";

/// The same of entries, which also stand in their places.
const CHANGES_OF_ENTRIES: &[(&str, &str)] = &[
    ("UPDATE scoped_entries SET id = -1 WHERE reason = 1", FIRST),
    (
        "UPDATE scoped_entries SET id = 25769803775 WHERE reason = 1",
        FIRST,
    ),
    (
        "UPDATE scoped_entries SET id = 25769803778 WHERE reason = 4",
        SECOND,
    ),
    (
        "UPDATE scoped_entries SET issuer = -1",
        "UPDATE scoped_entries SET issuer = 1",
    ),
    (
        "UPDATE scoped_entries SET issuer = 536870911",
        "UPDATE scoped_entries SET issuer = 1",
    ),
    (
        "UPDATE scoped_entries SET scope = -1",
        "UPDATE scoped_entries SET scope = 2",
    ),
    (
        "UPDATE scoped_entries SET scope = 3",
        "UPDATE scoped_entries SET scope = 2",
    ),
    ("UPDATE scoped_entries SET serial = x'05'", SERIAL),
    (
        "UPDATE scoped_entries SET serial = x'04' WHERE reason = 4",
        SERIAL,
    ),
    (
        "UPDATE scoped_entries SET reason = -1 WHERE reason = 4",
        REASON,
    ),
    (
        "UPDATE scoped_entries SET reason = 256 WHERE reason = 4",
        REASON,
    ),
];

const FIRST: &str = "UPDATE scoped_entries SET id = 25769803776 WHERE reason = 1";

const SECOND: &str = "UPDATE scoped_entries SET id = 25769803777 WHERE reason = 4";

const SERIAL: &str = "UPDATE scoped_entries SET serial = x'06' WHERE reason = 4";

const REASON: &str = "UPDATE scoped_entries SET reason = 4 WHERE id = 25769803777";

/// The rows of a store of version 1.
const OLD_ROWS: &str = "INSERT INTO meta (id, version) VALUES (1, 1);
INSERT INTO issuers (id, name, spki) VALUES (1, x'6e616d65', x'6b6579');
INSERT INTO crls (issuer, number, since, until) VALUES (1, x'0000000000000000000000000000000000000005', -10, 20);
INSERT INTO entries (issuer, serial, reason) VALUES (1, x'06', 4);
INSERT INTO ocsp (issuer, name_hash, serial, this_update, produced_at, since, until, status, reason)
VALUES (1, x'6868686868686868686868686868686868686868', x'05', 1, 2, 3, 4, 1, 3);";

const OLD_CHANGES: &[(&str, &str)] = &[
    (
        "DELETE FROM meta",
        "INSERT INTO meta (id, version) VALUES (1, 1)",
    ),
    (
        "INSERT INTO meta (id, version) VALUES (2, 1)",
        "DELETE FROM meta WHERE id = 2",
    ),
    ("UPDATE meta SET id = 2", "UPDATE meta SET id = 1"),
    ("UPDATE meta SET version = 2", "UPDATE meta SET version = 1"),
    ("UPDATE issuers SET id = -1", "UPDATE issuers SET id = 1"),
    (
        "UPDATE issuers SET id = 536870911",
        "UPDATE issuers SET id = 1",
    ),
    ("UPDATE crls SET issuer = -1", "UPDATE crls SET issuer = 1"),
    ("UPDATE crls SET issuer = 2", "UPDATE crls SET issuer = 1"),
    ("UPDATE crls SET number = x'05'", OLD_NUMBER),
    (
        "UPDATE entries SET issuer = -1",
        "UPDATE entries SET issuer = 1",
    ),
    (
        "UPDATE entries SET issuer = 2",
        "UPDATE entries SET issuer = 1",
    ),
    (
        "UPDATE entries SET reason = -1",
        "UPDATE entries SET reason = 4",
    ),
    (
        "UPDATE entries SET reason = 256",
        "UPDATE entries SET reason = 4",
    ),
    ("UPDATE ocsp SET issuer = 2", "UPDATE ocsp SET issuer = 1"),
    ("UPDATE ocsp SET status = 3", "UPDATE ocsp SET status = 1"),
    ("UPDATE ocsp SET status = 0", "UPDATE ocsp SET status = 1"),
    ("UPDATE ocsp SET reason = 256", "UPDATE ocsp SET reason = 3"),
];

const OLD_NUMBER: &str = "UPDATE crls SET number = x'0000000000000000000000000000000000000005'";

#[derive(Clone, Copy)]
enum Version {
    Old,
    New,
}

/// What a database with these rows is taken for.
fn taken(alloc: Global, conn: &mut Memory, version: Version) -> Result<(), StoreFault> {
    if !conn.is_autocommit() {
        return Err(StoreFault::Store);
    }
    match version {
        Version::New => inspect_under(conn, Profile::Stated),
        Version::Old => match read_version_1(alloc, conn) {
            Ok(_lists) => Ok(()),
            Err(fault) => Err(fault),
        },
    }
}

fn makes(conn: &mut Memory, version: Version) -> bool {
    match version {
        Version::New => {
            conn.is_autocommit()
                && create(conn, Profile::Stated).is_ok()
                && conn.execute_batch(ROWS).is_ok()
        }
        Version::Old => {
            conn.execute_batch(version_1_tables()).is_ok() && conn.execute_batch(OLD_ROWS).is_ok()
        }
    }
}

/// Whether the change is refused as one of the rows, and nothing once it is mended.
fn is_refused(
    alloc: Global,
    conn: &mut Memory,
    version: Version,
    change: &str,
    mend: &str,
) -> bool {
    conn.execute_batch(change).is_ok()
        && taken(alloc, conn, version) == Err(StoreFault::Schema)
        && conn.execute_batch(mend).is_ok()
        && taken(alloc, conn, version).is_ok()
}

/// The first change that is not refused so; `None` where all are.
fn first_taken(
    alloc: Global,
    conn: &mut Memory,
    version: Version,
    changes: &'static [(&'static str, &'static str)],
) -> Option<&'static str> {
    for (change, mend) in changes {
        if !is_refused(alloc, conn, version, change, mend) {
            return Some(change);
        }
    }
    None
}

/// The same in a database of its own.
fn taken_of(
    alloc: Global,
    version: Version,
    changes: &'static [(&'static str, &'static str)],
) -> Option<&'static str> {
    match Connection::open_in_memory(alloc) {
        Ok(mut conn) => {
            if !makes(&mut conn, version) || taken(alloc, &mut conn, version).is_err() {
                return Some("the rows of a store");
            }
            first_taken(alloc, &mut conn, version, changes)
        }
        Err(_) => Some("memory"),
    }
}

#[test]
fn each_cell_outside_its_form(rt: HostRuntime) -> Result<(), Fail> {
    assert_eq!(rt; taken_of(rt.alloc(), Version::New, CHANGES), None);
    Ok(())
}

#[test]
fn each_entry_outside_its_form_or_place(rt: HostRuntime) -> Result<(), Fail> {
    assert_eq!(rt;
        taken_of(rt.alloc(), Version::New, CHANGES_OF_ENTRIES),
        None
    );
    Ok(())
}

#[test]
fn each_cell_of_version_1(rt: HostRuntime) -> Result<(), Fail> {
    assert_eq!(rt; taken_of(rt.alloc(), Version::Old, OLD_CHANGES), None);
    Ok(())
}
