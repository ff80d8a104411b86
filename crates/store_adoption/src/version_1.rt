//! A database of version 1, read once.

ghost use Rattle.std.specs.Prelude.{◌≡◌, false, Err};
ghost use Rattle.sqlite.specs.Held.{state};
ghost use Rattle.store_sql.specs.Statements.{CommitsNothing, IsDurable};
ghost use Rattle.store_sql.specs.Tables.{version_1_schema};
ghost use Rattle.store_adoption.specs.Creates.{IsSettled};
ghost use Rattle.store_adoption.specs.Inspects.{LacksVersion1, HasVersion, HasIssuers, HasSingles, HasUnscopedCrls, HasUnscopedEntries, HasListsUnder, HasUnder, ChecksOn, ChecksForCause, ChecksThat, ReadsVersion1On, HasSchema, HasVersionAndIssuers, HasIds, ReadsOn, HasNext};
ghost use Rattle.store_adoption.specs.Seen.{seen_crls, seen_entries};
ghost use Rattle.store_adoption.specs.Read.{ShowsUnscoped, ShowsOwn, ShowsAll};

use crate::issuer_test::IssuerTest;
use crate::row_test::test_rows;
use crate::single_test::SingleTest;
use crate::unscoped::{OwnEntry, UnscopedList, UnscopedLists};
use crate::unscoped_test::{ListTest, OwnTest};
use crate::version_test::{VersionTest, is_version};
use sqlite::{Alter, Connection};
use std::alloc::Global;
use store_sql::{StoreFault, is_version_1};

fn read_version<S: Alter>(conn: &mut Connection<S>) -> Result<(), StoreFault>
    requires idle { conn.old.in_transaction ≡ false }
    requires ours { HasSchema S.Store conn.old version_1_schema }
    ensures idle { conn.new.in_transaction ≡ false }
    ensures checks { ChecksThat S.Store conn.old conn.new (HasVersion 1) result }
    ensures caused { ChecksForCause S.Store conn.old conn.new result }
    ensures survives { CommitsNothing (state S.Store conn.old) (state S.Store conn.new) }
{
    let mut test = VersionTest { version: None };
    test_rows(conn, "SELECT id, version FROM meta ORDER BY id", &mut test)?;
    if is_version(test.version, 1) {
        Ok(())
    } else {
        Err(StoreFault::Schema)
    }
}

/// One more than the id of the last issuer.
fn read_issuers<S: Alter>(conn: &mut Connection<S>) -> Result<u32, StoreFault>
    requires idle { conn.old.in_transaction ≡ false }
    requires ours { HasSchema S.Store conn.old version_1_schema }
    ensures idle { conn.new.in_transaction ≡ false }
    ensures checks { ReadsOn S.Store conn.old conn.new HasIssuers HasNext result }
    ensures caused { ChecksForCause S.Store conn.old conn.new result }
    ensures survives { CommitsNothing (state S.Store conn.old) (state S.Store conn.new) }
{
    let mut test = IssuerTest { next: 1 };
    test_rows(conn, "SELECT id FROM issuers ORDER BY id", &mut test)?;
    Ok(test.next)
}

fn read_singles<S: Alter>(conn: &mut Connection<S>, next: u32) -> Result<(), StoreFault>
    requires idle { conn.old.in_transaction ≡ false }
    requires ours { HasSchema S.Store conn.old version_1_schema }
    ensures idle { conn.new.in_transaction ≡ false }
    ensures checks { ChecksThat S.Store conn.old conn.new (HasSingles next) result }
    ensures caused { ChecksForCause S.Store conn.old conn.new result }
    ensures survives { CommitsNothing (state S.Store conn.old) (state S.Store conn.new) }
{
    let mut test = SingleTest { next };
    test_rows(
        conn,
        "SELECT issuer, status, reason FROM ocsp ORDER BY rowid",
        &mut test,
    )?;
    Ok(())
}

fn read_lists<S: Alter>(
    alloc: Global,
    conn: &mut Connection<S>,
    next: u32,
) -> Result<Vec<UnscopedList>, StoreFault>
    requires idle { conn.old.in_transaction ≡ false }
    requires ours { HasSchema S.Store conn.old version_1_schema }
    ensures idle { conn.new.in_transaction ≡ false }
    ensures checks { ReadsOn S.Store conn.old conn.new (HasUnscopedCrls next) ShowsUnscoped result }
    ensures caused { ChecksForCause S.Store conn.old conn.new result }
    ensures survives { CommitsNothing (state S.Store conn.old) (state S.Store conn.new) }
{
    let mut test = ListTest {
        next,
        lists: Vec::new(alloc),
    };
    test_rows(
        conn,
        "SELECT issuer, number, since, until FROM crls ORDER BY issuer",
        &mut test,
    )?;
    Ok(test.lists)
}

fn read_entries<S: Alter>(
    alloc: Global,
    conn: &mut Connection<S>,
    next: u32,
) -> Result<Vec<OwnEntry>, StoreFault>
    requires idle { conn.old.in_transaction ≡ false }
    requires ours { HasSchema S.Store conn.old version_1_schema }
    ensures idle { conn.new.in_transaction ≡ false }
    ensures checks { ReadsOn S.Store conn.old conn.new (HasUnscopedEntries next) ShowsOwn result }
    ensures caused { ChecksForCause S.Store conn.old conn.new result }
    ensures survives { CommitsNothing (state S.Store conn.old) (state S.Store conn.new) }
{
    let mut test = OwnTest {
        next,
        entries: Vec::new(alloc),
    };
    test_rows(
        conn,
        "SELECT issuer, serial, reason FROM entries ORDER BY rowid",
        &mut test,
    )?;
    Ok(test.entries)
}

/// The version, and one more than the id of the last issuer.
fn read_ids<S: Alter>(conn: &mut Connection<S>) -> Result<u32, StoreFault>
    requires idle { conn.old.in_transaction ≡ false }
    requires ours { HasSchema S.Store conn.old version_1_schema }
    ensures idle { conn.new.in_transaction ≡ false }
    ensures checks { ChecksOn S.Store conn.old conn.new (HasIds 1) (HasVersionAndIssuers 1) result }
    ensures caused { ChecksForCause S.Store conn.old conn.new result }
    ensures survives { CommitsNothing (state S.Store conn.old) (state S.Store conn.new) }
{
    read_version(conn)?;
    read_issuers(conn)
}

/// All lists, and their entries.
fn read_all_lists<S: Alter>(
    alloc: Global,
    conn: &mut Connection<S>,
    next: u32,
) -> Result<UnscopedLists, StoreFault>
    requires idle { conn.old.in_transaction ≡ false }
    requires ours { HasSchema S.Store conn.old version_1_schema }
    ensures idle { conn.new.in_transaction ≡ false }
    ensures checks { ReadsOn S.Store conn.old conn.new (HasListsUnder next) ShowsAll result }
    ensures caused { ChecksForCause S.Store conn.old conn.new result }
    ensures survives { CommitsNothing (state S.Store conn.old) (state S.Store conn.new) }
{
    let lists = read_lists(alloc, conn, next)?;
    let entries = read_entries(alloc, conn, next)?;
    Ok(UnscopedLists { lists, entries })
}

/// What stands under the ids of issuers.
fn read_under<S: Alter>(
    alloc: Global,
    conn: &mut Connection<S>,
    next: u32,
) -> Result<UnscopedLists, StoreFault>
    requires idle { conn.old.in_transaction ≡ false }
    requires ours { HasSchema S.Store conn.old version_1_schema }
    ensures idle { conn.new.in_transaction ≡ false }
    ensures checks { ReadsOn S.Store conn.old conn.new (HasUnder next) ShowsAll result }
    ensures caused { ChecksForCause S.Store conn.old conn.new result }
    ensures survives { CommitsNothing (state S.Store conn.old) (state S.Store conn.new) }
{
    read_singles(conn, next)?;
    read_all_lists(alloc, conn, next)
}

fn read_all<S: Alter>(alloc: Global, conn: &mut Connection<S>) -> Result<UnscopedLists, StoreFault>
    requires idle { conn.old.in_transaction ≡ false }
    ensures idle { conn.new.in_transaction ≡ false }
    ensures tables { LacksVersion1 (state S.Store conn.old).now → result ≡ Err StoreFault.Schema }
    ensures reads { ReadsVersion1On S.Store conn.old conn.new seen_crls seen_entries result }
    ensures caused { ChecksForCause S.Store conn.old conn.new result }
    ensures survives { CommitsNothing (state S.Store conn.old) (state S.Store conn.new) }
{
    if !is_version_1(conn.schema()) {
        return Err(StoreFault::Schema);
    }
    let next = read_ids(conn)?;
    read_under(alloc, conn, next)
}

/// Reads all rows of a database of version 1 once, and answers its lists: `StoreFault::Schema` if it is none, or has a row that
/// version 1 does not write.
pub fn read_version_1<S: Alter>(
    alloc: Global,
    conn: &mut Connection<S>,
) -> Result<UnscopedLists, StoreFault>
    requires idle { conn.old.in_transaction ≡ false }
    ensures idle { conn.new.in_transaction ≡ false }
    ensures tables { LacksVersion1 (state S.Store conn.old).now → result ≡ Err StoreFault.Schema }
    ensures reads { ReadsVersion1On S.Store conn.old conn.new seen_crls seen_entries result }
    ensures caused { ChecksForCause S.Store conn.old conn.new result }
    ensures settled { IsSettled (state S.Store conn.old) × IsSettled (state S.Store conn.new) }
    ensures durable { IsDurable (state S.Store conn.new) }
    ensures survives { CommitsNothing (state S.Store conn.old) (state S.Store conn.new) }
{
    let _before = conn.is_autocommit();
    let all = read_all(alloc, conn);
    let _after = conn.is_autocommit();
    all
}
