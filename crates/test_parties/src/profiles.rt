//! Which profile a database is a store of.

ghost use Rattle.std.specs.Prelude.{◌≡◌, false};

use crate::telling::made;
use sqlite::{Alter, Connection, Options};
use sqlite_disk::Disk;
use statements_facts::Profile;
use statements_facts::Profile::{Stated, Wide};
use std::alloc::Global;
use store::Store;
use store_sql::StoreFault;

/// What a store was made as, a statement of SQL on its tables, what it is taken for, and the number of the fault, or 0.
type Row = (Profile, &'static str, Profile, u8);

const NOTHING: &str = "UPDATE meta SET version = version";

const ROWS: &[Row] = &[
    (Stated, NOTHING, Stated, 0),
    (Wide, NOTHING, Wide, 0),
    (Stated, NOTHING, Wide, 72),
    (Wide, NOTHING, Stated, 72),
    // the version in the tables is what tells them apart; there are two
    (Stated, "UPDATE meta SET version = 3", Wide, 0),
    (Stated, "UPDATE meta SET version = 4", Stated, 72),
    (Stated, "UPDATE meta SET version = 4", Wide, 72),
    (Wide, "UPDATE meta SET version = 4", Wide, 72),
    (Wide, "UPDATE meta SET version = 1", Wide, 72),
    (Wide, "UPDATE meta SET version = 0", Wide, 72),
    (Wide, "DELETE FROM meta", Wide, 72),
];

/// Whether the statement is executed and committed.
fn is_committed<S: Alter>(conn: &mut Connection<S>, sql: &str) -> bool
    requires idle { conn.old.in_transaction ≡ false }
    ensures idle { conn.new.in_transaction ≡ false }
{
    let mut tx = conn.transaction();
    if tx.execute(sql, &[]).is_err() {
        return false;
    }
    tx.commit().is_ok()
}

/// 0 if the store says that it is of the profile, or 255.
fn number_told<D: Disk>(store: &Store<D>, profile: Profile) -> u8 {
    if store.profile == profile { 0 } else { 255 }
}

/// The number of the fault with which the tables are refused; 0 if they are those of a store of the profile, 255 if the store says that it
/// is of another.
fn number_under<D: Disk + Drop>(alloc: Global, profile: Profile, store: Store<D>) -> u8 {
    let Ok(files) = store.into_files() else {
        return 254;
    };
    let Ok(conn) = Connection::open_files(alloc, files, Options::new(0)) else {
        return 253;
    };
    match Store::adopt_under(alloc, profile, conn) {
        Ok(store) => number_told(&store, profile),
        Err(refused) => refused.fault.number(),
    }
}

fn number_of(alloc: Global, row: &Row) -> Option<u8> {
    let (made_as, sql, taken_as, _) = *row;
    let mut store = made(alloc, made_as)?;
    if !is_committed(&mut store.conn, sql) {
        return None;
    }
    Some(number_under(alloc, taken_as, store))
}

#[test]
fn stores_are_taken_for_their_own_profile(rt: HostRuntime) {
    for (index, row) in ROWS.iter().enumerate() {
        assert_eq!(rt; number_of(rt.alloc(), row), Some(row.3), "row {index}");
    }
}

/// The profile of a store that is closed and opened again.
fn reopened(alloc: Global, profile: Profile) -> Option<Profile> {
    let store = made(alloc, profile)?.reopen(alloc).ok()?;
    Some(store.profile)
}

#[test]
fn a_store_keeps_its_profile(rt: HostRuntime) {
    for profile in &[Stated, Wide] {
        assert_eq!(rt; reopened(rt.alloc(), *profile), Some(*profile));
    }
}
