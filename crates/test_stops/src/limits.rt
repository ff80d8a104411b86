//! Where no id is left for another issuer a statement is refused with 71, and what is held stays.

use crate::putting::{Row, Statement, puts, tells};
use sqlite::Connection;
use sqlite_trees::memory::MemStore;
use statements_facts::{Listed, Profile};
use std::alloc::Global;
use store_adoption::{create, inspect};
use store_sql::StoreFault;

const LIST: Statement = Statement::List(
    5,
    &[Listed {
        serial: b"\x05",
        reason: 1,
    }],
);

/// What the list says, and what is held before it.
const PUT: &[Row] = &[(b"\x05", (5, 1), None)];

const NOTHING: &[Row] = &[(b"\x05", (0, 255), None)];

/// What is answered where a list is put into a store that has an issuer with this id, and whether the store then holds these rows.
fn put_behind(
    alloc: Global,
    conn: &mut Connection<MemStore>,
    issuer: &str,
    rows: &[Row],
) -> Option<(Result<(), StoreFault>, bool)> {
    if !conn.is_autocommit()
        || create(conn, Profile::Stated).is_err()
        || conn.execute_batch(issuer).is_err()
    {
        return None;
    }
    let put = puts(alloc, conn, LIST);
    if !conn.is_autocommit() || inspect(conn).is_err() {
        return None;
    }
    Some((put, tells(alloc, conn, rows).is_ok()))
}

/// The same in a database of its own.
fn put_into(alloc: Global, issuer: &str, rows: &[Row]) -> Option<(Result<(), StoreFault>, bool)> {
    match Connection::open_in_memory(alloc) {
        Ok(mut conn) => put_behind(alloc, &mut conn, issuer, rows),
        Err(_) => None,
    }
}

#[test]
fn the_last_id(rt: HostRuntime) {
    let issuer = "INSERT INTO issuers (id, name, spki) VALUES (536870909, x'01', x'02')";
    assert!(rt; put_into(rt.alloc(), issuer, PUT) == Some((Ok(()), true)));
}

#[test]
fn no_id_is_left(rt: HostRuntime) {
    let issuer = "INSERT INTO issuers (id, name, spki) VALUES (536870910, x'01', x'02')";
    let refused = Err(StoreFault::Store);
    assert!(rt; put_into(rt.alloc(), issuer, NOTHING) == Some((refused, true)));
}
