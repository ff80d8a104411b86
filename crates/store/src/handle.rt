//! A store over files.

ghost use Rattle.std.specs.Prelude.{◌≡◌, ◌≢◌, false, Err, IfErr, IfOk, OnErr, OnOk};
ghost use Rattle.sqlite.specs.Files.{IsClosed, file_state};
ghost use Rattle.statements_facts.specs.Fact.{seen_issuer};
ghost use Rattle.statements_facts.specs.declared.profile.Profile.TheVariants.{Stated, Wide};
ghost use Rattle.store_sql.specs.Statements.{CommitsNothing, IsDurable};
ghost use Rattle.store_adoption.specs.Creates.{IsSettled, HasTables};
ghost use Rattle.store_adoption.specs.Inspects.{LacksVersion2};
ghost use Rattle.store.specs.Adopts.{CausedOn, IsRefusedForCause, Reopens, HasOtherTables, MayLeaveVersion2, IsCreatedOn, IsEmptyStoreOn, IsNotAdoptedOn, IsNotCreatedForCause, IsNotCreatedOn, IsOpenOn, MayLeaveEmpty, WasStoreOn, KeepsStoreOn, MigratesStoreOn, HasStoreOn, IsStoreOn, PutsOn, PutsForCauseOn, AllOrNothingOn, FindsHeldOn, FindsOnlyIfOpen, IsUnlimited, AreUsable, CopiesTo, RestartsOn};
ghost use Rattle.store.specs.Opens.{ClosesForCause, FailsToReopen, ReopensForCause, reopen_fault};
ghost use Rattle.store.specs.Widens.{MayLeaveWide, WidensForCauseOn, WidensOn};
ghost use Rattle.store_migration.specs.Migrates.{MayLeaveMigrated};
ghost use Rattle.store_maps.specs.Held.{IsCrlHeld, IsOcspHeld};

use crate::adopting::{adopt, take_over};
use crate::look_up::{look_up_crl, look_up_ocsp};
use crate::putting::put;
use crate::refusal::{Refused, ReopenFault};
use crate::reopening::open_again;
use sqlite::{Connection, FileStore, Files};
use sqlite_disk::Disk;
use statements_facts::{Counts, CrlAnswer, Facts, Issuer, OcspAnswer, Profile, Scope};
use std::alloc::Global;
use store_adoption::create;
use store_migration::widen;
use store_sql::StoreFault;

/// A store over files, between transactions.
pub struct Store<D: Disk> {
    pub conn: Connection<FileStore<D>>,
    /// Which statements are read for it: that of its tables.
    pub profile: Profile,
    pub ghost idle: { conn.in_transaction ≡ false },
}

impl<D: Disk + Drop> Drop for Store<D> {
    fn drop(self) {
        let Store {
            conn: _,
            profile: _,
        } = self;
    }
}

impl<D: Disk> ReopenFault<D> {
    /// The fault, without what is left.
    pub fn fault(&self) -> StoreFault
        ensures { result ≡ reopen_fault self.now }
    {
        match self {
            ReopenFault::Close(fault, _) | ReopenFault::Open(fault, _) => *fault,
            ReopenFault::Adopt(refused) => refused.fault,
        }
    }
}

impl<D: Disk + Drop> Store<D> {
    /// Makes a store of the stated profile that holds nothing in an empty database. `StoreFault::Store` if a table is there already. After a
    /// fault no table was made, and the connection comes back.
    pub fn create(conn: Connection<FileStore<D>>) -> Result<Store<D>, Refused<D>>
        requires idle { conn.in_transaction ≡ false }
        ensures profile { IfOk result (λ store. store.profile ≡ Stated) }
        ensures created { IfOk result (λ store. IsCreatedOn conn store.conn Stated) }
        ensures nothing { IfOk result (λ store. IsEmptyStoreOn Stated store.conn) }
        ensures is_open { IfOk result (λ store. IsOpenOn store.conn) }
        ensures settled { IfOk result (λ store. IsSettled (file_state store.conn)) }
        ensures durable { IfOk result (λ store. IsDurable (file_state store.conn)) }
        ensures crash { IfOk result (λ store. MayLeaveEmpty conn store.conn Stated) }
        ensures free { OnOk result (HasTables (file_state conn).now → ⊥) }
        ensures tables { IfErr result (λ refused.
            HasTables (file_state conn).now → refused.fault ≡ StoreFault.Store) }
        ensures caused { IfErr result (λ refused.
            IsNotCreatedForCause conn refused.conn refused.fault) }
        ensures refused { IfErr result (λ refused. IsNotCreatedOn conn refused.conn refused.fault) }
        ensures refused_durable { IfErr result (λ refused. IsDurable (file_state refused.conn)) }
        ensures refused_crash { IfErr result (λ refused. MayLeaveEmpty conn refused.conn Stated) }
    {
        Store::create_under(Profile::Stated, conn)
    }

    /// As `create`, of this profile. A store is of one profile from its making.
    pub fn create_under(
        profile: Profile,
        mut conn: Connection<FileStore<D>>,
    ) -> Result<Store<D>, Refused<D>>
        requires idle { conn.in_transaction ≡ false }
        ensures profile { IfOk result (λ store. store.profile ≡ profile) }
        ensures created { IfOk result (λ store. IsCreatedOn conn store.conn profile) }
        ensures nothing { IfOk result (λ store. IsEmptyStoreOn profile store.conn) }
        ensures is_open { IfOk result (λ store. IsOpenOn store.conn) }
        ensures settled { IfOk result (λ store. IsSettled (file_state store.conn)) }
        ensures durable { IfOk result (λ store. IsDurable (file_state store.conn)) }
        ensures crash { IfOk result (λ store. MayLeaveEmpty conn store.conn profile) }
        ensures free { OnOk result (HasTables (file_state conn).now → ⊥) }
        ensures tables { IfErr result (λ refused.
            HasTables (file_state conn).now → refused.fault ≡ StoreFault.Store) }
        ensures caused { IfErr result (λ refused.
            IsNotCreatedForCause conn refused.conn refused.fault) }
        ensures refused { IfErr result (λ refused. IsNotCreatedOn conn refused.conn refused.fault) }
        ensures refused_durable { IfErr result (λ refused. IsDurable (file_state refused.conn)) }
        ensures refused_crash { IfErr result (λ refused. MayLeaveEmpty conn refused.conn profile) }
    {
        match create(&mut conn, profile) {
            Ok(()) => Ok(Store { conn, profile }),
            Err(fault) => Err(Refused { fault, conn }),
        }
    }

    /// Takes a database for a store of the stated profile, after migrating it if it is of version 1; `StoreFault::Schema` if it is neither.
    /// Each row is read once; a migration takes memory for all entries, twice. After a fault the database is as it was, and the connection
    /// comes back.
    pub fn adopt(alloc: Global, conn: Connection<FileStore<D>>) -> Result<Store<D>, Refused<D>>
        requires idle { conn.in_transaction ≡ false }
        ensures profile { IfOk result (λ store. store.profile ≡ Stated) }
        ensures was { IfOk result (λ store. WasStoreOn conn store.conn Stated) }
        ensures unchanged { IfOk result (λ store. KeepsStoreOn conn store.conn) }
        ensures migrated { IfOk result (λ store. MigratesStoreOn conn store.conn) }
        ensures store { IfOk result (λ store. IsStoreOn Stated store.conn) }
        ensures is_open { IfOk result (λ store. IsOpenOn store.conn) }
        ensures settled { IfOk result (λ store. IsSettled (file_state store.conn)) }
        ensures durable { IfOk result (λ store. IsDurable (file_state store.conn)) }
        ensures crash { IfOk result (λ store. MayLeaveVersion2 conn store.conn) }
        ensures ours { OnOk result (HasOtherTables (file_state conn).now → ⊥) }
        ensures tables { IfErr result (λ refused.
            HasOtherTables (file_state conn).now → refused.fault ≡ StoreFault.Schema) }
        ensures caused { IfErr result (λ refused.
            IsRefusedForCause conn refused.conn refused.fault) }
        ensures refused { IfErr result (λ refused.
            IsNotAdoptedOn conn refused.conn Stated refused.fault) }
        ensures refused_durable { IfErr result (λ refused. IsDurable (file_state refused.conn)) }
        ensures refused_crash { IfErr result (λ refused.
            MayLeaveMigrated (file_state conn) (file_state refused.conn)) }
    {
        Store::adopt_under(alloc, Profile::Stated, conn)
    }

    /// As `adopt`, of this profile: `StoreFault::Schema` also if it is a store of the other. Version 1 is of the stated profile.
    pub fn adopt_under(
        alloc: Global,
        profile: Profile,
        mut conn: Connection<FileStore<D>>,
    ) -> Result<Store<D>, Refused<D>>
        requires idle { conn.in_transaction ≡ false }
        ensures profile { IfOk result (λ store. store.profile ≡ profile) }
        ensures was { IfOk result (λ store. WasStoreOn conn store.conn profile) }
        ensures unchanged { IfOk result (λ store. KeepsStoreOn conn store.conn) }
        ensures migrated { IfOk result (λ store. MigratesStoreOn conn store.conn) }
        ensures store { IfOk result (λ store. IsStoreOn profile store.conn) }
        ensures is_open { IfOk result (λ store. IsOpenOn store.conn) }
        ensures settled { IfOk result (λ store. IsSettled (file_state store.conn)) }
        ensures durable { IfOk result (λ store. IsDurable (file_state store.conn)) }
        ensures crash { IfOk result (λ store. MayLeaveVersion2 conn store.conn) }
        ensures ours { OnOk result (HasOtherTables (file_state conn).now → ⊥) }
        ensures tables { IfErr result (λ refused.
            HasOtherTables (file_state conn).now → refused.fault ≡ StoreFault.Schema) }
        ensures caused { IfErr result (λ refused.
            IsRefusedForCause conn refused.conn refused.fault) }
        ensures refused { IfErr result (λ refused.
            IsNotAdoptedOn conn refused.conn profile refused.fault) }
        ensures refused_durable { IfErr result (λ refused. IsDurable (file_state refused.conn)) }
        ensures refused_crash { IfErr result (λ refused.
            MayLeaveMigrated (file_state conn) (file_state refused.conn)) }
    {
        match take_over(alloc, profile, &mut conn) {
            Ok(()) => Ok(Store { conn, profile }),
            Err(fault) => Err(Refused { fault, conn }),
        }
    }

    /// Puts all facts of a statement into the store, in order and in one transaction; then each slot holds the newest. The facts are
    /// counted as stored, kept out, or contradicting what is held. After a fault what is held is as it was. A list of n entries is stored
    /// in n log n; one of the same number as the held list is compared by a look-up for each entry.
    pub fn put(&mut self, facts: &Facts<'_>) -> Result<Counts, StoreFault>
        ensures profile { self.new.profile ≡ self.old.profile }
        ensures puts { PutsOn self.old.conn self.new.conn facts.now result }
        ensures caused { PutsForCauseOn self.old.conn self.new.conn facts.now result }
        ensures settled { IsSettled (file_state self.old.conn)
            × IsSettled (file_state self.new.conn) }
        ensures survives { AllOrNothingOn self.old.conn self.new.conn facts.now }
    {
        put(&mut self.conn, facts)
    }

    /// Makes a store of the stated profile one of the wide, in one transaction; what is held stays. After a fault it is as it was. There is
    /// no way back: from then on it may hold lists for distribution points, which the stated profile does not read. A store that is wide
    /// already stays as it is.
    pub fn widen(&mut self) -> Result<(), StoreFault>
        ensures profile { OnOk result (self.new.profile ≡ Wide) }
        ensures kept { OnErr result (self.new.profile ≡ self.old.profile) }
        ensures tables { LacksVersion2 (file_state self.old.conn).now
            → result ≡ Err StoreFault.Schema }
        ensures widens { WidensOn self.old.conn self.new.conn result }
        ensures caused { WidensForCauseOn self.old.conn self.new.conn result }
        ensures settled { IsSettled (file_state self.old.conn)
            × IsSettled (file_state self.new.conn) }
        ensures durable { IsDurable (file_state self.new.conn) }
        ensures survives { MayLeaveWide self.old.conn self.new.conn }
    {
        widen(&mut self.conn)?;
        self.profile = Profile::Wide;
        Ok(())
    }

    /// The list held of an issuer and a scope: its number, its window in seconds from 1970-01-01T00:00:00Z, and its reason for one serial
    /// number (the contents octets); `None` if none is held. The serial number is found by halving, in at most 33 statements of SQL. No
    /// fault is `Schema` if the rows have the form that a store writes.
    pub fn crl(
        &mut self,
        issuer: &Issuer<'_>,
        scope: Scope,
        serial: &[u8],
    ) -> Result<Option<CrlAnswer>, StoreFault>
        ensures profile { self.new.profile ≡ self.old.profile }
        ensures looks_up { FindsHeldOn self.old.conn self.new.conn
            (IsCrlHeld (seen_issuer issuer.now) scope serial.now) result }
        ensures caused { CausedOn (file_state self.old.conn) (file_state self.new.conn) result }
        ensures open { FindsOnlyIfOpen (file_state self.old.conn) (file_state self.new.conn)
            result }
        ensures settled { IsSettled (file_state self.old.conn)
            × IsSettled (file_state self.new.conn) }
        ensures durable { IsDurable (file_state self.new.conn) }
        ensures survives { CommitsNothing (file_state self.old.conn) (file_state self.new.conn) }
    {
        look_up_crl(&mut self.conn, issuer, scope, serial)
    }

    /// What is held of one certificate of an issuer, by the SHA-1 hash of the issuer's name, as the certificate spells it, and the
    /// contents octets of its serial number; `None` if nothing is held.
    pub fn ocsp<'x>(
        &mut self,
        issuer: &Issuer<'_>,
        name_hash: &'x [u8],
        serial: &'x [u8],
    ) -> Result<Option<OcspAnswer>, StoreFault>
        ensures profile { self.new.profile ≡ self.old.profile }
        ensures looks_up { FindsHeldOn self.old.conn self.new.conn
            (IsOcspHeld (seen_issuer issuer.now) name_hash.now serial.now) result }
        ensures caused { CausedOn (file_state self.old.conn) (file_state self.new.conn) result }
        ensures open { FindsOnlyIfOpen (file_state self.old.conn) (file_state self.new.conn)
            result }
        ensures settled { IsSettled (file_state self.old.conn)
            × IsSettled (file_state self.new.conn) }
        ensures durable { IsDurable (file_state self.new.conn) }
        ensures survives { CommitsNothing (file_state self.old.conn) (file_state self.new.conn) }
    {
        look_up_ocsp(&mut self.conn, issuer, name_hash, serial)
    }

    /// Closes the store: then the database file has all that is held, and a connection opened on the files is the same store. If that
    /// fails, what SQLite keeps of the files comes back; what was committed is safe.
    pub fn into_files(self) -> Result<Files<D>, (StoreFault, FileStore<D>)>
        ensures usable { IfOk result (AreUsable D.Disk) }
        ensures copied { IfOk result (CopiesTo self.conn) }
        ensures reopens { IfOk result (Reopens self.conn) }
        ensures fault { IfErr result (λ failed. failed.0 ≢ StoreFault.Schema) }
        ensures cause { IfErr result (λ failed. ClosesForCause self.conn failed.1 failed.0) }
        ensures left { IfErr result (λ failed. IsClosed self.conn failed.1) }
    {
        let Store { conn, profile: _ } = self;
        let _settled = conn.is_autocommit();
        match conn.close_files() {
            Ok(files) => Ok(files),
            Err((error, left)) => Err((StoreFault::from(error), left)),
        }
    }

    /// Closes the store's files and takes them for a store again, which reads each row once. If that fails, what is left comes back.
    pub fn reopen(self, alloc: Global) -> Result<Store<D>, ReopenFault<D>>
        ensures profile { IfOk result (λ store. store.profile ≡ self.profile) }
        ensures restarts { IfOk result (λ store. RestartsOn self.conn store.conn) }
        ensures store { IfOk result (λ store. HasStoreOn store.conn) }
        ensures unlimited { IfOk result (λ store. IsUnlimited (file_state store.conn)) }
        ensures settled { IfOk result (λ store. IsSettled (file_state store.conn)) }
        ensures durable { IfOk result (λ store. IsDurable (file_state store.conn)) }
        ensures cause { IfErr result (ReopensForCause self.conn) }
        ensures fails { IfErr result (FailsToReopen self.conn) }
    {
        let profile = self.profile;
        let files = match self.into_files() {
            Ok(files) => files,
            Err((fault, left)) => return Err(ReopenFault::Close(fault, left)),
        };
        let mut conn = match open_again(alloc, files) {
            Ok(conn) => conn,
            Err((fault, left)) => return Err(ReopenFault::Open(fault, left)),
        };
        match adopt(&mut conn) {
            Ok(_) => Ok(Store { conn, profile }),
            Err(fault) => Err(ReopenFault::Adopt(Refused { fault, conn })),
        }
    }
}
