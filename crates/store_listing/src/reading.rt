//! A store's tables, each read once.

ghost use Rattle.std.specs.Prelude.{◌≡◌, false, Err};
ghost use Rattle.sqlite.specs.Held.{state};
ghost use Rattle.store_sql.specs.Statements.{CommitsNothing, IsDurable};
ghost use Rattle.store_sql.specs.Tables.{store_schema};
ghost use Rattle.store_adoption.specs.Creates.{IsSettled};
ghost use Rattle.store_adoption.specs.Inspects.{LacksVersion2, ChecksForCause, HasSchema};
ghost use Rattle.store_listing.specs.Laws.{ShowsStoreOf};
ghost use Rattle.store_listing.specs.Listing.{IsListing};
ghost use Rattle.store_listing.specs.Reads.{ReadsOf, AreIssuers, CountsEntries, AreHeads, AreLists, AreSingles};

use crate::count_test::CountTest;
use crate::counted::{KeyedHead, with_counts};
use crate::held::{HeldIssuer, HeldList, HeldSingle, Listing};
use crate::issuer_test::IssuerTest;
use crate::list_test::ListTest;
use crate::single_test::SingleTest;
use sqlite::{Alter, Connection};
use std::alloc::Global;
use std::collections::BTreeMap;
use store_adoption::test_rows;
use store_sql::{Origin, StoreFault, origin_of};

fn read_issuers<S: Alter>(
    alloc: Global,
    conn: &mut Connection<S>,
    origin: Origin,
) -> Result<Vec<HeldIssuer>, StoreFault>
    requires idle { conn.old.in_transaction ≡ false }
    requires ours { HasSchema S.Store conn.old (store_schema origin) }
    ensures idle { conn.new.in_transaction ≡ false }
    ensures reads { ReadsOf S.Store conn.old conn.new AreIssuers result }
    ensures caused { ChecksForCause S.Store conn.old conn.new result }
    ensures survives { CommitsNothing (state S.Store conn.old) (state S.Store conn.new) }
{
    let mut test = IssuerTest {
        issuers: Vec::new(alloc),
    };
    test_rows(
        conn,
        "SELECT id, name, spki FROM issuers ORDER BY id",
        &mut test,
    )?;
    Ok(test.issuers)
}

/// How many entries each list has.
fn read_counts<S: Alter>(
    alloc: Global,
    conn: &mut Connection<S>,
    origin: Origin,
) -> Result<BTreeMap<u64, u64>, StoreFault>
    requires idle { conn.old.in_transaction ≡ false }
    requires ours { HasSchema S.Store conn.old (store_schema origin) }
    ensures idle { conn.new.in_transaction ≡ false }
    ensures reads { ReadsOf S.Store conn.old conn.new CountsEntries result }
    ensures caused { ChecksForCause S.Store conn.old conn.new result }
    ensures survives { CommitsNothing (state S.Store conn.old) (state S.Store conn.new) }
{
    let mut test = CountTest {
        counts: BTreeMap::new(alloc),
    };
    test_rows(
        conn,
        "SELECT issuer, scope FROM scoped_entries ORDER BY id",
        &mut test,
    )?;
    Ok(test.counts)
}

/// The lists, without their entries.
fn read_heads<S: Alter>(
    alloc: Global,
    conn: &mut Connection<S>,
    origin: Origin,
) -> Result<Vec<KeyedHead>, StoreFault>
    requires idle { conn.old.in_transaction ≡ false }
    requires ours { HasSchema S.Store conn.old (store_schema origin) }
    ensures idle { conn.new.in_transaction ≡ false }
    ensures reads { ReadsOf S.Store conn.old conn.new AreHeads result }
    ensures caused { ChecksForCause S.Store conn.old conn.new result }
    ensures survives { CommitsNothing (state S.Store conn.old) (state S.Store conn.new) }
{
    let mut test = ListTest {
        heads: Vec::new(alloc),
    };
    test_rows(
        conn,
        "SELECT issuer, scope, number, since, until FROM scoped_crls ORDER BY rowid",
        &mut test,
    )?;
    Ok(test.heads)
}

fn read_singles<S: Alter>(
    alloc: Global,
    conn: &mut Connection<S>,
    origin: Origin,
) -> Result<Vec<HeldSingle>, StoreFault>
    requires idle { conn.old.in_transaction ≡ false }
    requires ours { HasSchema S.Store conn.old (store_schema origin) }
    ensures idle { conn.new.in_transaction ≡ false }
    ensures reads { ReadsOf S.Store conn.old conn.new AreSingles result }
    ensures caused { ChecksForCause S.Store conn.old conn.new result }
    ensures survives { CommitsNothing (state S.Store conn.old) (state S.Store conn.new) }
{
    let mut test = SingleTest {
        singles: Vec::new(alloc),
    };
    test_rows(
        conn,
        "SELECT issuer, name_hash, serial, this_update, produced_at, since, until, status, reason FROM ocsp ORDER BY rowid",
        &mut test,
    )?;
    Ok(test.singles)
}

/// The lists, each with the count of its entries.
fn read_lists<S: Alter>(
    alloc: Global,
    conn: &mut Connection<S>,
    origin: Origin,
) -> Result<Vec<HeldList>, StoreFault>
    requires idle { conn.old.in_transaction ≡ false }
    requires ours { HasSchema S.Store conn.old (store_schema origin) }
    ensures idle { conn.new.in_transaction ≡ false }
    ensures reads { ReadsOf S.Store conn.old conn.new AreLists result }
    ensures caused { ChecksForCause S.Store conn.old conn.new result }
    ensures survives { CommitsNothing (state S.Store conn.old) (state S.Store conn.new) }
{
    let counts = read_counts(alloc, conn, origin)?;
    let heads = read_heads(alloc, conn, origin)?;
    Ok(with_counts(alloc, heads.as_slice(), &counts)?)
}

fn read_all<S: Alter>(
    alloc: Global,
    conn: &mut Connection<S>,
    origin: Origin,
) -> Result<Listing, StoreFault>
    requires idle { conn.old.in_transaction ≡ false }
    requires ours { HasSchema S.Store conn.old (store_schema origin) }
    ensures idle { conn.new.in_transaction ≡ false }
    ensures reads { ReadsOf S.Store conn.old conn.new IsListing result }
    ensures caused { ChecksForCause S.Store conn.old conn.new result }
    ensures survives { CommitsNothing (state S.Store conn.old) (state S.Store conn.new) }
{
    let issuers = read_issuers(alloc, conn, origin)?;
    let lists = read_lists(alloc, conn, origin)?;
    let singles = read_singles(alloc, conn, origin)?;
    Ok(Listing {
        issuers,
        lists,
        singles,
    })
}

fn read_tables<S: Alter>(alloc: Global, conn: &mut Connection<S>) -> Result<Listing, StoreFault>
    requires idle { conn.old.in_transaction ≡ false }
    ensures idle { conn.new.in_transaction ≡ false }
    ensures tables { LacksVersion2 (state S.Store conn.old).now → result ≡ Err StoreFault.Schema }
    ensures reads { ReadsOf S.Store conn.old conn.new IsListing result }
    ensures caused { ChecksForCause S.Store conn.old conn.new result }
    ensures survives { CommitsNothing (state S.Store conn.old) (state S.Store conn.new) }
{
    let Some(origin) = origin_of(conn.schema()) else {
        return Err(StoreFault::Schema);
    };
    read_all(alloc, conn, origin)
}

/// Lists what a store holds: each row of its tables, in their order, and how many entries each list has. Each table is read once, and
/// an entry costs a look at log n of n lists. `StoreFault::Schema` if the tables are not those of version 2, or if a row has a form that
/// no store has.
pub fn read_listing<S: Alter>(
    alloc: Global,
    conn: &mut Connection<S>,
) -> Result<Listing, StoreFault>
    requires idle { conn.old.in_transaction ≡ false }
    ensures idle { conn.new.in_transaction ≡ false }
    ensures tables { LacksVersion2 (state S.Store conn.old).now → result ≡ Err StoreFault.Schema }
    ensures reads { ReadsOf S.Store conn.old conn.new IsListing result }
    ensures shows { ShowsStoreOf S.Store conn.old conn.new result }
    ensures caused { ChecksForCause S.Store conn.old conn.new result }
    ensures settled { IsSettled (state S.Store conn.old) × IsSettled (state S.Store conn.new) }
    ensures durable { IsDurable (state S.Store conn.new) }
    ensures survives { CommitsNothing (state S.Store conn.old) (state S.Store conn.new) }
{
    let _before = conn.is_autocommit();
    let all = read_tables(alloc, conn);
    let _after = conn.is_autocommit();
    all
}
