//! Stores at paths.
ghost use Rattle.std.specs.Prelude.{◌≡◌, ◌≢◌, ◌⊎◌, false, IfErr, IfOk, List, OnOk};
ghost use Rattle.statements_facts.specs.Statement.{Holdings};
ghost use Rattle.sqlite.specs.Files.{file_state};
ghost use Rattle.sqlite_wal.specs.Files.{image_at};
ghost use Rattle.store_adoption.specs.Creates.{HasTables, IsSettled};
ghost use Rattle.store.specs.Adopts.{IsEmptyStoreOn, IsOpenOn};
ghost use Rattle.store.specs.Opens.{IsMadeFromOn, fault_of};
ghost use Rattle.store_sql.specs.Statements.{IsDurable};
ghost use Rattle.store_sql.specs.Tables.{no_schema};
ghost use Rattle.cli_steps.specs.Keeping.{IsNotKept};
ghost use Rattle.cli_store.specs.OnFiles.{HasNoRoom, HasRoom, IsFoundOn, places_on, stands_on};
ghost use Rattle.cli_store.specs.Standing.{IsFound, IsFoundOrMade, IsNotFound, IsOfStore, IsOpenIfClean, LeavesIfClean, MakesNoStore, seen_in, seen_of, told_of};

use cli_failures::{Failure, StoreRefusal};
use relying::Fault;
use sqlite::{Connection, FileStore};
use sqlite_disk::{Disk, Start};
use sqlite_std_file::{File, FileFrom, Unknown};
use statements_facts::Profile;
use std::{fs, io};
use store::{OpenFault, Refused, Store};
use store_sql::{StoreFault, is_empty};

/// What has a connection to a database, which clauses see in its state.
pub trait Connected: Drop {
    ghost use Rattle.sqlite.specs.State.{State};

    /// What is seen of the connection.
    ghost state: { Self → State };
}

impl<D: Disk + Drop> Connected for Store<D> {
    ghost use Rattle.sqlite.specs.Files.{file_state};

    ghost state = { λ store. file_state store.conn };
}

/// Where stores stand. They are kept on files of the system, or on disks of another kind.
///
/// What stands at a path of the system's files is the system's own matter: no contract can look at a disk. The contracts only know that what
/// is opened is what stands there, that what is closed is left there and lasts, and that opening fails only because of what is found at the
/// path. All stores are of one profile: a database that is a store of the other is refused.
pub trait Stores<T: Connected> {
    ghost use Rattle.std.specs.Prelude.{List};
    ghost use Rattle.statements_facts.specs.Statement.{Holdings};
    ghost use Rattle.cli_store.specs.Standing.{Places};

    /// What is known of the places of stores: their profile (`profile`), what was found at a path (`stands`), how a store of a path was seen when it was closed
    /// (`leaves`), and what is found there next (`lasts`).
    ghost places: { Self → Places };

    /// The store that stands at the path; `Unreadable` if there is no file that can be read. What it holds is committed, and is there
    /// behind a crash.
    fn open_store<'a>(&self, path: &'a str) -> Result<T, Failure<'a>>
        ensures found { IfOk result (λ store.
            IsFound (places self.now) path.entry.now (seen_of (T.state store))) }
        ensures open { IfOk result (λ store. IsOpenIfClean (T.state store)) }
        ensures settled { IfOk result (λ store. IsSettled (T.state store)) }
        ensures durable { IfOk result (λ store. IsDurable (T.state store)) }
        ensures fails { IfErr result (IsNotFound (places self.now).stands path.entry.now) };

    /// The same; if no file is there, or a database without tables, a store is made that holds nothing.
    fn open_or_make_store<'a>(&self, path: &'a str) -> Result<T, Failure<'a>>
        ensures found { IfOk result (λ store.
            IsFoundOrMade (places self.now) path.entry.now (seen_of (T.state store))) }
        ensures open { IfOk result (λ store. IsOpenIfClean (T.state store)) }
        ensures settled { IfOk result (λ store. IsSettled (T.state store)) }
        ensures durable { IfOk result (λ store. IsDurable (T.state store)) }
        ensures fails { IfErr result (MakesNoStore (places self.now).stands path.entry.now) };

    /// Closes a store of the path. What was committed to it is safe however that ends.
    fn close_store(&self, path: &str, store: T)
        ensures leaves { (places self.now).leaves path.now (seen_of (T.state store)) }
        ensures lasts { (left : List Holdings)
            → LeavesIfClean (T.state store) left → (places self.now).lasts path.now left };
}

/// What a fault of a store or of a party is for a run.
pub fn failed<'a>(fault: Fault) -> Failure<'a>
    ensures { result ≡ told_of fault }
{
    let Fault::Store(fault) = fault else {
        return Failure::NoMemory;
    };
    match fault {
        StoreFault::Memory => Failure::NoMemory,
        StoreFault::Store => Failure::StoreFailed {
            refusal: StoreRefusal::Store,
        },
        StoreFault::Schema => Failure::StoreFailed {
            refusal: StoreRefusal::Schema,
        },
    }
}

// What is told where no store is opened.
fn not_opened<'a, D: Disk>(unopened: &OpenFault<D>) -> Failure<'a>
    ensures { result ≡ told_of (Fault.Store (fault_of unopened.now)) }
{
    failed(Fault::Store(unopened.fault()))
}

// What is told where no store is made: never that tables are no store's, since there were none.
fn not_made<'a>(fault: StoreFault) -> Failure<'a>
    ensures kind { IsNotKept result }
    ensures told { fault ≢ StoreFault.Schema → result ≡ told_of (Fault.Store fault) }
{
    match fault {
        StoreFault::Memory => Failure::NoMemory,
        StoreFault::Store | StoreFault::Schema => Failure::StoreFailed {
            refusal: StoreRefusal::Store,
        },
    }
}

// The store at the path.
fn open<'a, S: Start>(
    rt: &HostRuntime,
    profile: Profile,
    path: &str,
    start: S,
) -> Result<Store<FileFrom<S>>, Failure<'a>>
    ensures found { IfOk result (λ store. IsFoundOn profile (image_at S.Start) store.conn) }
    ensures is_open { IfOk result (λ store. IsOpenOn store.conn) }
    ensures settled { IfOk result (λ store. IsSettled (file_state store.conn)) }
    ensures durable { IfOk result (λ store. IsDurable (file_state store.conn)) }
    ensures fails { IfErr result IsOfStore }
{
    match Store::open_from(rt, profile, path, start) {
        Ok(store) => Ok(store),
        Err(unopened) => Err(not_opened(&unopened)),
    }
}

// A store that is made at the path.
fn make<'a, S: Start>(
    rt: &HostRuntime,
    profile: Profile,
    path: &str,
    start: S,
) -> Result<Store<FileFrom<S>>, Failure<'a>>
    ensures made { IfOk result (λ store. IsMadeFromOn profile (image_at S.Start) store.conn) }
    ensures empty { IfOk result (λ store. IsEmptyStoreOn profile store.conn) }
    ensures is_open { IfOk result (λ store. IsOpenOn store.conn) }
    ensures settled { IfOk result (λ store. IsSettled (file_state store.conn)) }
    ensures durable { IfOk result (λ store. IsDurable (file_state store.conn)) }
    ensures fails { IfErr result IsNotKept }
{
    match Store::make_from(rt, profile, path, start) {
        Ok(store) => {
            let _settled = store.conn.is_autocommit();
            Ok(store)
        }
        Err(unopened) => Err(not_made(unopened.fault())),
    }
}

// A store that is made in an empty database. Over tables the refusal is that of the database.
fn create<'a, D: Disk + Drop>(
    profile: Profile,
    conn: Connection<FileStore<D>>,
) -> Result<Store<D>, Failure<'a>>
    requires idle { conn.in_transaction ≡ false }
    ensures empty { IfOk result (λ store. IsEmptyStoreOn profile store.conn) }
    ensures is_open { IfOk result (λ store. IsOpenOn store.conn) }
    ensures settled { IfOk result (λ store. IsSettled (file_state store.conn)) }
    ensures durable { IfOk result (λ store. IsDurable (file_state store.conn)) }
    ensures free { OnOk result (HasTables (file_state conn).now → ⊥) }
    ensures tables { IfErr result (λ failure. HasTables (file_state conn).now
        → failure ≡ told_of (Fault.Store StoreFault.Store)) }
    ensures fails { IfErr result IsNotKept }
{
    match Store::create_under(profile, conn) {
        Ok(store) => {
            let _settled = store.conn.is_autocommit();
            Ok(store)
        }
        Err(refused) => Err(not_made(refused.fault)),
    }
}

// Makes a store in a refused database if that has no table. A process that ends while it makes a store may leave such a database. If it has
// tables, the fault for which it was refused is told.
fn fill<'a, D: Disk + Drop>(profile: Profile, refused: Refused<D>) -> Result<Store<D>, Failure<'a>>
    ensures empty { IfOk result (λ store. IsEmptyStoreOn profile store.conn) }
    ensures is_open { IfOk result (λ store. IsOpenOn store.conn) }
    ensures settled { IfOk result (λ store. IsSettled (file_state store.conn)) }
    ensures durable { IfOk result (λ store. IsDurable (file_state store.conn)) }
    ensures free { OnOk result (HasTables (file_state refused.conn).now → ⊥) }
    ensures tables { IfErr result (λ failure. HasTables (file_state refused.conn).now
        → failure ≡ told_of (Fault.Store refused.fault)) }
    ensures empty_told { IfErr result (λ failure. (file_state refused.conn).now.schema ≡ no_schema
        → IsNotKept failure) }
    ensures fails { IfErr result IsOfStore }
{
    let Refused { fault, conn } = refused;
    if is_empty(conn.schema()) {
        create(profile, conn)
    } else {
        Err(failed(Fault::Store(fault)))
    }
}

// The same of a database that was not opened for a store, if there is one. If there is none, the fault is told.
fn fill_or_tell<'a, D: Disk + Drop>(
    profile: Profile,
    unopened: OpenFault<D>,
) -> Result<Store<D>, Failure<'a>>
    ensures empty { IfOk result (λ store. IsEmptyStoreOn profile store.conn) }
    ensures is_open { IfOk result (λ store. IsOpenOn store.conn) }
    ensures settled { IfOk result (λ store. IsSettled (file_state store.conn)) }
    ensures durable { IfOk result (λ store. IsDurable (file_state store.conn)) }
    ensures free { OnOk result (HasNoRoom unopened → ⊥) }
    ensures told { IfErr result (λ failure. HasNoRoom unopened
        → failure ≡ told_of (Fault.Store (fault_of unopened))) }
    ensures empty_told { IfErr result (λ failure. HasRoom unopened → IsNotKept failure) }
    ensures fails { IfErr result IsOfStore }
{
    match unopened {
        OpenFault::Refused(refused) => fill(profile, refused),
        OpenFault::Unconnected(fault) => Err(failed(Fault::Store(fault))),
    }
}

// The store in the file at the path. If its database has no table, a store is made in it.
fn open_or_fill<'a, S: Start>(
    rt: &HostRuntime,
    profile: Profile,
    path: &str,
    start: S,
) -> Result<Store<FileFrom<S>>, Failure<'a>>
    ensures store { IfOk result (λ store.
        IsFoundOn profile (image_at S.Start) store.conn ⊎ IsEmptyStoreOn profile store.conn) }
    ensures is_open { IfOk result (λ store. IsOpenOn store.conn) }
    ensures settled { IfOk result (λ store. IsSettled (file_state store.conn)) }
    ensures durable { IfOk result (λ store. IsDurable (file_state store.conn)) }
    ensures fails { IfErr result IsOfStore }
{
    match Store::open_from(rt, profile, path, start) {
        Ok(store) => Ok(store),
        Err(unopened) => fill_or_tell(profile, unopened),
    }
}

// Whether no file is there.
fn is_missing(rt: &HostRuntime, path: &str) -> bool {
    match fs::open(rt, path) {
        Ok(_) => false,
        Err(error) => error.kind() == io::ErrorKind::NotFound,
    }
}

// The store of the profile that stands at the path of the system's files, which hold what `S` says.
pub(crate) fn open_at<'a, S: Start>(
    rt: &HostRuntime,
    profile: Profile,
    path: &'a str,
    start: S,
) -> Result<Store<FileFrom<S>>, Failure<'a>>
    ensures found { IfOk result (λ store.
        IsFound (places_on profile (image_at S.Start)) path.entry.now (seen_in store)) }
    ensures open { IfOk result (λ store. IsOpenIfClean (file_state store.conn)) }
    ensures settled { IfOk result (λ store. IsSettled (file_state store.conn)) }
    ensures durable { IfOk result (λ store. IsDurable (file_state store.conn)) }
    ensures fails { IfErr result (IsNotFound (stands_on (image_at S.Start)) path.entry.now) }
{
    if fs::open(rt, path).is_err() {
        return Err(Failure::Unreadable { file: path });
    }
    open(rt, profile, path, start)
}

// The same; if no file is there, or a database without tables, a store is made that holds nothing.
pub(crate) fn open_or_make_at<'a, S: Start>(
    rt: &HostRuntime,
    profile: Profile,
    path: &'a str,
    start: S,
) -> Result<Store<FileFrom<S>>, Failure<'a>>
    ensures found { IfOk result (λ store.
        IsFoundOrMade (places_on profile (image_at S.Start)) path.entry.now
        (seen_in store)) }
    ensures open { IfOk result (λ store. IsOpenIfClean (file_state store.conn)) }
    ensures settled { IfOk result (λ store. IsSettled (file_state store.conn)) }
    ensures durable { IfOk result (λ store. IsDurable (file_state store.conn)) }
    ensures fails { IfErr result (MakesNoStore (stands_on (image_at S.Start)) path.entry.now) }
{
    if is_missing(rt, path) {
        make(rt, profile, path, start)
    } else {
        open_or_fill(rt, profile, path, start)
    }
}

/// The system's files, at `Unknown`. The profile is the stated one.
impl Stores<Store<File>> for HostRuntime {
    ghost use Rattle.statements_facts.specs.declared.profile.Profile.TheVariants.{Stated};
    ghost use Rattle.store.specs.Opens.{nothing_held};
    ghost use Rattle.cli_store.specs.OnFiles.{places_on};

    ghost places = { λ _. places_on Stated nothing_held };

    fn open_store<'a>(&self, path: &'a str) -> Result<Store<File>, Failure<'a>> {
        open_at(self, Profile::Stated, path, Unknown)
    }

    fn open_or_make_store<'a>(&self, path: &'a str) -> Result<Store<File>, Failure<'a>> {
        open_or_make_at(self, Profile::Stated, path, Unknown)
    }

    fn close_store(&self, _path: &str, store: Store<File>) {
        let _ = store.into_files();
    }
}
