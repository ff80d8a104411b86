//! A database, read once and taken for a store.

ghost use Rattle.std.specs.Prelude.{◌≡◌, ◌≢◌, false, Err, IfNone, IfSome, Some};
ghost use Rattle.sqlite.specs.Held.{state};
ghost use Rattle.store_sql.specs.Statements.{CommitsNothing, IsDurable};
ghost use Rattle.store_sql.specs.Tables.{store_schema};
ghost use Rattle.store_rows.specs.Contents.{version_number};
ghost use Rattle.store_adoption.specs.Creates.{IsSettled};
ghost use Rattle.store_adoption.specs.Inspects.{LacksVersion2, HasVersionOf, HasProfile, HasIssuers, HasCrls, HasSingles, HasEntries, HasHeads, HasRows, ChecksOn, ChecksForCause, ChecksThat, InspectsOn, HasSchema, HasCrlsAndSingles, IsStoreUnder, ReadsOn, HasNext};

use crate::crl_test::CrlTest;
use crate::entry_test::EntryTest;
use crate::issuer_test::IssuerTest;
use crate::row_test::test_rows;
use crate::single_test::SingleTest;
use crate::version_test::VersionTest;
use sqlite::{Alter, Connection};
use statements_facts::Profile;
use store_sql::{Origin, StoreFault, origin_of};

/// The profile of a version of the tables.
fn profile_of(version: Option<u32>) -> Option<Profile>
    ensures some { IfSome result (λ profile. version ≡ Some (version_number profile)) }
    ensures none { IfNone result ((profile : Profile) → version ≢ Some (version_number profile)) }
{
    match version {
        Some(2) => Some(Profile::Stated),
        Some(3) => Some(Profile::Wide),
        _ => None,
    }
}

/// The profile, by the version of the tables.
fn inspect_version<S: Alter>(
    conn: &mut Connection<S>,
    origin: Origin,
) -> Result<Profile, StoreFault>
    requires idle { conn.old.in_transaction ≡ false }
    requires ours { HasSchema S.Store conn.old (store_schema origin) }
    ensures idle { conn.new.in_transaction ≡ false }
    ensures checks { ChecksOn S.Store conn.old conn.new HasVersionOf HasProfile result }
    ensures caused { ChecksForCause S.Store conn.old conn.new result }
    ensures survives { CommitsNothing (state S.Store conn.old) (state S.Store conn.new) }
{
    let mut test = VersionTest { version: None };
    test_rows(conn, "SELECT id, version FROM meta ORDER BY id", &mut test)?;
    match profile_of(test.version) {
        Some(profile) => Ok(profile),
        None => Err(StoreFault::Schema),
    }
}

/// One more than the id of the last issuer.
fn inspect_issuers<S: Alter>(conn: &mut Connection<S>, origin: Origin) -> Result<u32, StoreFault>
    requires idle { conn.old.in_transaction ≡ false }
    requires ours { HasSchema S.Store conn.old (store_schema origin) }
    ensures idle { conn.new.in_transaction ≡ false }
    ensures checks { ReadsOn S.Store conn.old conn.new HasIssuers HasNext result }
    ensures caused { ChecksForCause S.Store conn.old conn.new result }
    ensures survives { CommitsNothing (state S.Store conn.old) (state S.Store conn.new) }
{
    let mut test = IssuerTest { next: 1 };
    test_rows(conn, "SELECT id FROM issuers ORDER BY id", &mut test)?;
    Ok(test.next)
}

fn inspect_crls<S: Alter>(
    conn: &mut Connection<S>,
    origin: Origin,
    next: u32,
) -> Result<(), StoreFault>
    requires idle { conn.old.in_transaction ≡ false }
    requires ours { HasSchema S.Store conn.old (store_schema origin) }
    ensures idle { conn.new.in_transaction ≡ false }
    ensures checks { ChecksThat S.Store conn.old conn.new (HasCrls origin next) result }
    ensures caused { ChecksForCause S.Store conn.old conn.new result }
    ensures survives { CommitsNothing (state S.Store conn.old) (state S.Store conn.new) }
{
    let mut test = CrlTest { next };
    test_rows(
        conn,
        "SELECT issuer, scope, number FROM scoped_crls ORDER BY rowid",
        &mut test,
    )?;
    Ok(())
}

fn inspect_singles<S: Alter>(
    conn: &mut Connection<S>,
    origin: Origin,
    next: u32,
) -> Result<(), StoreFault>
    requires idle { conn.old.in_transaction ≡ false }
    requires ours { HasSchema S.Store conn.old (store_schema origin) }
    ensures idle { conn.new.in_transaction ≡ false }
    ensures checks { ChecksThat S.Store conn.old conn.new (HasSingles next) result }
    ensures caused { ChecksForCause S.Store conn.old conn.new result }
    ensures survives { CommitsNothing (state S.Store conn.old) (state S.Store conn.new) }
{
    let mut test = SingleTest { next };
    test_rows(
        conn,
        "SELECT issuer, status, reason FROM ocsp ORDER BY rowid",
        &mut test,
    )?;
    Ok(())
}

fn inspect_entries<S: Alter>(conn: &mut Connection<S>, origin: Origin) -> Result<(), StoreFault>
    requires idle { conn.old.in_transaction ≡ false }
    requires ours { HasSchema S.Store conn.old (store_schema origin) }
    ensures idle { conn.new.in_transaction ≡ false }
    ensures checks { ChecksThat S.Store conn.old conn.new (HasEntries origin) result }
    ensures caused { ChecksForCause S.Store conn.old conn.new result }
    ensures survives { CommitsNothing (state S.Store conn.old) (state S.Store conn.new) }
{
    let mut test = EntryTest { last: None };
    test_rows(
        conn,
        "SELECT id, issuer, scope, serial, reason FROM scoped_entries ORDER BY id",
        &mut test,
    )?;
    Ok(())
}

/// What stands under the ids of issuers: lists, and what responses say.
fn inspect_under_issuers<S: Alter>(
    conn: &mut Connection<S>,
    origin: Origin,
    next: u32,
) -> Result<(), StoreFault>
    requires idle { conn.old.in_transaction ≡ false }
    requires ours { HasSchema S.Store conn.old (store_schema origin) }
    ensures idle { conn.new.in_transaction ≡ false }
    ensures checks { ChecksThat S.Store conn.old conn.new (HasCrlsAndSingles origin next) result }
    ensures caused { ChecksForCause S.Store conn.old conn.new result }
    ensures survives { CommitsNothing (state S.Store conn.old) (state S.Store conn.new) }
{
    inspect_crls(conn, origin, next)?;
    inspect_singles(conn, origin, next)
}

fn inspect_heads<S: Alter>(conn: &mut Connection<S>, origin: Origin) -> Result<(), StoreFault>
    requires idle { conn.old.in_transaction ≡ false }
    requires ours { HasSchema S.Store conn.old (store_schema origin) }
    ensures idle { conn.new.in_transaction ≡ false }
    ensures checks { ChecksThat S.Store conn.old conn.new (HasHeads origin) result }
    ensures caused { ChecksForCause S.Store conn.old conn.new result }
    ensures survives { CommitsNothing (state S.Store conn.old) (state S.Store conn.new) }
{
    let next = inspect_issuers(conn, origin)?;
    inspect_under_issuers(conn, origin, next)
}

fn inspect_rows<S: Alter>(conn: &mut Connection<S>, origin: Origin) -> Result<(), StoreFault>
    requires idle { conn.old.in_transaction ≡ false }
    requires ours { HasSchema S.Store conn.old (store_schema origin) }
    ensures idle { conn.new.in_transaction ≡ false }
    ensures checks { ChecksThat S.Store conn.old conn.new (HasRows origin) result }
    ensures caused { ChecksForCause S.Store conn.old conn.new result }
    ensures survives { CommitsNothing (state S.Store conn.old) (state S.Store conn.new) }
{
    inspect_heads(conn, origin)?;
    inspect_entries(conn, origin)
}

fn inspect_all<S: Alter>(conn: &mut Connection<S>) -> Result<Profile, StoreFault>
    requires idle { conn.old.in_transaction ≡ false }
    ensures idle { conn.new.in_transaction ≡ false }
    ensures tables { LacksVersion2 (state S.Store conn.old).now → result ≡ Err StoreFault.Schema }
    ensures inspects { InspectsOn S.Store conn.old conn.new result }
    ensures caused { ChecksForCause S.Store conn.old conn.new result }
    ensures survives { CommitsNothing (state S.Store conn.old) (state S.Store conn.new) }
{
    let Some(origin) = origin_of(conn.schema()) else {
        return Err(StoreFault::Schema);
    };
    let profile = inspect_version(conn, origin)?;
    inspect_rows(conn, origin)?;
    Ok(profile)
}

/// Reads all rows once, and answers the profile; `StoreFault::Schema` if they are not those of a store.
pub fn inspect<S: Alter>(conn: &mut Connection<S>) -> Result<Profile, StoreFault>
    requires idle { conn.old.in_transaction ≡ false }
    ensures idle { conn.new.in_transaction ≡ false }
    ensures tables { LacksVersion2 (state S.Store conn.old).now → result ≡ Err StoreFault.Schema }
    ensures inspects { InspectsOn S.Store conn.old conn.new result }
    ensures caused { ChecksForCause S.Store conn.old conn.new result }
    ensures settled { IsSettled (state S.Store conn.old) × IsSettled (state S.Store conn.new) }
    ensures durable { IsDurable (state S.Store conn.new) }
    ensures survives { CommitsNothing (state S.Store conn.old) (state S.Store conn.new) }
{
    let _before = conn.is_autocommit();
    let done = inspect_all(conn);
    let _after = conn.is_autocommit();
    done
}

/// As `inspect`, of this profile alone: `StoreFault::Schema` if the rows are those of the other.
pub fn inspect_under<S: Alter>(conn: &mut Connection<S>, profile: Profile) -> Result<(), StoreFault>
    requires idle { conn.old.in_transaction ≡ false }
    ensures idle { conn.new.in_transaction ≡ false }
    ensures tables { LacksVersion2 (state S.Store conn.old).now → result ≡ Err StoreFault.Schema }
    ensures inspects { ChecksThat S.Store conn.old conn.new (IsStoreUnder profile) result }
    ensures caused { ChecksForCause S.Store conn.old conn.new result }
    ensures settled { IsSettled (state S.Store conn.old) × IsSettled (state S.Store conn.new) }
    ensures durable { IsDurable (state S.Store conn.new) }
    ensures survives { CommitsNothing (state S.Store conn.old) (state S.Store conn.new) }
{
    let found = inspect(conn)?;
    if found == profile {
        Ok(())
    } else {
        Err(StoreFault::Schema)
    }
}
