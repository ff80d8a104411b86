//! Stores at paths.

ghost use Rattle.std.specs.Prelude.{◌≡◌, IfErr, IfOk};
ghost use Rattle.sqlite.specs.Files.{file_state};
ghost use Rattle.sqlite_wal.specs.Files.{image_at};
ghost use Rattle.statements_facts.specs.declared.profile.Profile.TheVariants.{Stated};
ghost use Rattle.store_adoption.specs.Creates.{IsSettled};
ghost use Rattle.store.specs.Adopts.{IsEmptyStoreOn, IsOpenOn, IsStoreOn, IsUnlimited};
ghost use Rattle.store_sql.specs.Statements.{IsDurable};
ghost use Rattle.store.specs.Opens.{IsMadeFromOn, IsNotMade, IsNotMadeForCause, IsNotOpened, IsNotOpenedForCause, IsTakenFromOn, fault_of, nothing_held};

use crate::connecting::connect;
use crate::handle::Store;
use crate::refusal::OpenFault;
use sqlite_disk::{Disk, Start};
use sqlite_std_file::{File, FileFrom, Unknown};
use statements_facts::Profile;
use std::rt::HostRuntime;
use store_sql::StoreFault;

impl<D: Disk> OpenFault<D> {
    /// The fault, without what is left.
    pub fn fault(&self) -> StoreFault
        ensures { result ≡ fault_of self.now }
    {
        match self {
            OpenFault::Unconnected(fault) => *fault,
            OpenFault::Refused(refused) => refused.fault,
        }
    }
}

impl Store<File> {
    /// Takes the file at a path for a store of the stated profile, after migrating it if it is of version 1: `StoreFault::Store` if there is
    /// no file or it is no database, `StoreFault::Schema` if it is no such store. A connection that is not taken for a store comes back. Each
    /// row is read once.
    pub fn open(rt: &HostRuntime, path: &str) -> Result<Store<File>, OpenFault>
        ensures profile { IfOk result (λ store. store.profile ≡ Stated) }
        ensures found { IfOk result (λ store. IsTakenFromOn Stated nothing_held store.conn) }
        ensures store { IfOk result (λ store. IsStoreOn Stated store.conn) }
        ensures is_open { IfOk result (λ store. IsOpenOn store.conn) }
        ensures unlimited { IfOk result (λ store. IsUnlimited (file_state store.conn)) }
        ensures settled { IfOk result (λ store. IsSettled (file_state store.conn)) }
        ensures durable { IfOk result (λ store. IsDurable (file_state store.conn)) }
        ensures fails { IfErr result (IsNotOpened Stated) }
        ensures caused { IfErr result (IsNotOpenedForCause Stated nothing_held) }
    {
        Store::open_from(rt, Profile::Stated, path, Unknown)
    }

    /// As `open`, of this profile: `StoreFault::Schema` also if it is a store of the other.
    pub fn open_under(
        rt: &HostRuntime,
        profile: Profile,
        path: &str,
    ) -> Result<Store<File>, OpenFault>
        ensures profile { IfOk result (λ store. store.profile ≡ profile) }
        ensures found { IfOk result (λ store. IsTakenFromOn profile nothing_held store.conn) }
        ensures store { IfOk result (λ store. IsStoreOn profile store.conn) }
        ensures is_open { IfOk result (λ store. IsOpenOn store.conn) }
        ensures unlimited { IfOk result (λ store. IsUnlimited (file_state store.conn)) }
        ensures settled { IfOk result (λ store. IsSettled (file_state store.conn)) }
        ensures durable { IfOk result (λ store. IsDurable (file_state store.conn)) }
        ensures fails { IfErr result (IsNotOpened profile) }
        ensures caused { IfErr result (IsNotOpenedForCause profile nothing_held) }
    {
        Store::open_from(rt, profile, path, Unknown)
    }

    /// Makes a store of the stated profile that holds nothing at a path: `StoreFault::Store` if a file is there. A connection in which no
    /// store could be made comes back.
    pub fn make(rt: &HostRuntime, path: &str) -> Result<Store<File>, OpenFault>
        ensures profile { IfOk result (λ store. store.profile ≡ Stated) }
        ensures found { IfOk result (λ store. IsMadeFromOn Stated nothing_held store.conn) }
        ensures store { IfOk result (λ store. IsEmptyStoreOn Stated store.conn) }
        ensures is_open { IfOk result (λ store. IsOpenOn store.conn) }
        ensures unlimited { IfOk result (λ store. IsUnlimited (file_state store.conn)) }
        ensures settled { IfOk result (λ store. IsSettled (file_state store.conn)) }
        ensures durable { IfOk result (λ store. IsDurable (file_state store.conn)) }
        ensures fails { IfErr result IsNotMade }
        ensures caused { IfErr result (IsNotMadeForCause nothing_held) }
    {
        Store::make_from(rt, Profile::Stated, path, Unknown)
    }

    /// As `make`, of this profile.
    pub fn make_under(
        rt: &HostRuntime,
        profile: Profile,
        path: &str,
    ) -> Result<Store<File>, OpenFault>
        ensures profile { IfOk result (λ store. store.profile ≡ profile) }
        ensures found { IfOk result (λ store. IsMadeFromOn profile nothing_held store.conn) }
        ensures store { IfOk result (λ store. IsEmptyStoreOn profile store.conn) }
        ensures is_open { IfOk result (λ store. IsOpenOn store.conn) }
        ensures unlimited { IfOk result (λ store. IsUnlimited (file_state store.conn)) }
        ensures settled { IfOk result (λ store. IsSettled (file_state store.conn)) }
        ensures durable { IfOk result (λ store. IsDurable (file_state store.conn)) }
        ensures fails { IfErr result IsNotMade }
        ensures caused { IfErr result (IsNotMadeForCause nothing_held) }
    {
        Store::make_from(rt, profile, path, Unknown)
    }
}

impl<S: Start> Store<FileFrom<S>> {
    /// As `open_under`, where `S` stands for what the files hold: what is said of values and crashes is then said of any first contents, and
    /// not of empty files alone, as at `Unknown`.
    pub fn open_from(
        rt: &HostRuntime,
        profile: Profile,
        path: &str,
        start: S,
    ) -> Result<Store<FileFrom<S>>, OpenFault<FileFrom<S>>>
        ensures profile { IfOk result (λ store. store.profile ≡ profile) }
        ensures found { IfOk result (λ store.
            IsTakenFromOn profile (image_at S.Start) store.conn) }
        ensures store { IfOk result (λ store. IsStoreOn profile store.conn) }
        ensures is_open { IfOk result (λ store. IsOpenOn store.conn) }
        ensures unlimited { IfOk result (λ store. IsUnlimited (file_state store.conn)) }
        ensures settled { IfOk result (λ store. IsSettled (file_state store.conn)) }
        ensures durable { IfOk result (λ store. IsDurable (file_state store.conn)) }
        ensures fails { IfErr result (IsNotOpened profile) }
        ensures caused { IfErr result (IsNotOpenedForCause profile (image_at S.Start)) }
    {
        let conn = connect(rt, path, true, start)?;
        Ok(Store::adopt_under(rt.alloc(), profile, conn)?)
    }

    /// As `make_under`, where `S` stands for what the files hold.
    pub fn make_from(
        rt: &HostRuntime,
        profile: Profile,
        path: &str,
        start: S,
    ) -> Result<Store<FileFrom<S>>, OpenFault<FileFrom<S>>>
        ensures profile { IfOk result (λ store. store.profile ≡ profile) }
        ensures found { IfOk result (λ store.
            IsMadeFromOn profile (image_at S.Start) store.conn) }
        ensures store { IfOk result (λ store. IsEmptyStoreOn profile store.conn) }
        ensures is_open { IfOk result (λ store. IsOpenOn store.conn) }
        ensures unlimited { IfOk result (λ store. IsUnlimited (file_state store.conn)) }
        ensures settled { IfOk result (λ store. IsSettled (file_state store.conn)) }
        ensures durable { IfOk result (λ store. IsDurable (file_state store.conn)) }
        ensures fails { IfErr result IsNotMade }
        ensures caused { IfErr result (IsNotMadeForCause (image_at S.Start)) }
    {
        let conn = connect(rt, path, false, start)?;
        Ok(Store::create_under(profile, conn)?)
    }
}
