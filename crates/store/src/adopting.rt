//! A database that is taken for a store.

ghost use Rattle.std.specs.Prelude.{◌≡◌, ◌↔◌, false, OnOk, Err, IsTrue};
ghost use Rattle.statements_facts.specs.declared.profile.Profile.TheVariants.{Stated};
ghost use Rattle.store_sql.specs.Tables.{version_1_schema};
ghost use Rattle.sqlite.specs.Files.{file_state};
ghost use Rattle.store_sql.specs.Statements.{CommitsNothing, IsDurable};
ghost use Rattle.store_adoption.specs.Creates.{IsSettled};
ghost use Rattle.store.specs.Adopts.{AdoptsForCause, AdoptsOn, TakesOverForCause, HasOtherTables, TakesOverOn, MayLeaveVersion2, TakesOverInOrder};
ghost use Rattle.store_migration.specs.Migrates.{MayLeaveMigrated, MigratesForCause};
ghost use Rattle.sqlite.specs.State.{IsLive};
ghost use Rattle.sqlite.specs.Held.{state};
ghost use Rattle.store_adoption.specs.Inspects.{ChecksForCause, InspectsOn, LacksVersion2};

use sqlite::{Alter, Connection, FileStore};
use sqlite_disk::Disk;
use sqlite_schema::schema::Schema;
use statements_facts::Profile;
use std::alloc::Global;
use store_adoption::{inspect, inspect_under};
use store_migration::migrate;
use store_sql::{StoreFault, is_version_1};

/// The two calls that `adopt` makes. They stand in a function that is generic in the store for the prover alone: over files each
/// of them would cost it half a minute.
fn inspect_live<S: Alter>(conn: &mut Connection<S>) -> Result<Profile, StoreFault>
    requires idle { conn.old.in_transaction ≡ false }
    ensures idle { conn.new.in_transaction ≡ false }
    ensures live { IsLive (state S.Store conn.old) }
    ensures tables { LacksVersion2 (state S.Store conn.old).now → result ≡ Err StoreFault.Schema }
    ensures inspects { InspectsOn S.Store conn.old conn.new result }
    ensures caused { ChecksForCause S.Store conn.old conn.new result }
    ensures settled { IsSettled (state S.Store conn.old) × IsSettled (state S.Store conn.new) }
    ensures durable { IsDurable (state S.Store conn.new) }
    ensures survives { CommitsNothing (state S.Store conn.old) (state S.Store conn.new) }
{
    let _live = conn.schema();
    inspect(conn)
}

/// Takes a database for a store, and answers its profile: `StoreFault::Schema` if it has other tables than a store, another version, or a
/// row that no store writes there. Reads each row once, and changes nothing.
pub fn adopt<D: Disk + Drop>(conn: &mut Connection<FileStore<D>>) -> Result<Profile, StoreFault>
    requires idle { conn.old.in_transaction ≡ false }
    ensures idle { conn.new.in_transaction ≡ false }
    ensures tables { LacksVersion2 (file_state conn.old).now → result ≡ Err StoreFault.Schema }
    ensures adopts { AdoptsOn conn.old conn.new result }
    ensures caused { AdoptsForCause conn.old conn.new result }
    ensures settled { IsSettled (file_state conn.old) × IsSettled (file_state conn.new) }
    ensures durable { IsDurable (file_state conn.new) }
    ensures survives { CommitsNothing (file_state conn.old) (file_state conn.new) }
{
    inspect_live(conn)
}

/// Whether the tables are those of version 1, which is of the stated profile.
fn is_to_migrate(profile: Profile, schema: &Schema) -> bool
    ensures { IsTrue result ↔ ((profile ≡ Stated) × (schema.now ≡ version_1_schema)) }
{
    profile == Profile::Stated && is_version_1(schema)
}

/// The calls that `take_over` makes, in a function that is generic in the store, as `inspect_live`.
fn migrate_or_inspect<S: Alter>(
    alloc: Global,
    profile: Profile,
    conn: &mut Connection<S>,
) -> Result<(), StoreFault>
    requires idle { conn.old.in_transaction ≡ false }
    ensures idle { conn.new.in_transaction ≡ false }
    ensures live { IsLive (state S.Store conn.old) }
    ensures tables { HasOtherTables (state S.Store conn.old).now → result ≡ Err StoreFault.Schema }
    ensures takes { TakesOverInOrder profile (state S.Store conn.old) (state S.Store conn.new)
        result }
    ensures caused { MigratesForCause S.Store conn.old conn.new result }
    ensures settled { IsSettled (state S.Store conn.old) × IsSettled (state S.Store conn.new) }
    ensures durable { IsDurable (state S.Store conn.new) }
    ensures crash { MayLeaveMigrated (state S.Store conn.old) (state S.Store conn.new) }
{
    if is_to_migrate(profile, conn.schema()) {
        migrate(alloc, conn)
    } else {
        inspect_under(conn, profile)
    }
}

/// Takes a database for a store of this profile, after migrating it if it is of version 1 and the profile is the stated one:
/// `StoreFault::Schema` if it has the tables of neither version or of the other profile, or a row that no store writes there. After a fault
/// it is as it was.
pub fn take_over<D: Disk + Drop>(
    alloc: Global,
    profile: Profile,
    conn: &mut Connection<FileStore<D>>,
) -> Result<(), StoreFault>
    requires idle { conn.old.in_transaction ≡ false }
    ensures idle { conn.new.in_transaction ≡ false }
    ensures tables { HasOtherTables (file_state conn.old).now → result ≡ Err StoreFault.Schema }
    ensures takes { TakesOverOn conn.old conn.new profile result }
    ensures caused { TakesOverForCause conn.old conn.new result }
    ensures settled { IsSettled (file_state conn.old) × IsSettled (file_state conn.new) }
    ensures durable { IsDurable (file_state conn.new) }
    ensures crash { MayLeaveMigrated (file_state conn.old) (file_state conn.new) }
    ensures left { OnOk result (MayLeaveVersion2 conn.old conn.new) }
{
    migrate_or_inspect(alloc, profile, conn)
}
