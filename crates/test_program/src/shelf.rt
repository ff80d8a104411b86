//! Files that are texts, and stores in memory.
ghost use Rattle.std.specs.Prelude.{◌≡◌, ◌≢◌, false, IfErr, IfOk, IsTrue, OnOk, option_map};
ghost use Rattle.sqlite.specs.Files.{file_state};
ghost use Rattle.sqlite.specs.State.{HasCleanDisk};
ghost use Rattle.statements_facts.specs.Coming.{after_all};
ghost use Rattle.statements_facts.specs.Fact.{facts_in};
ghost use Rattle.statements_facts.specs.Statement.{Holdings, empty_holdings};
ghost use Rattle.statements_facts.specs.declared.profile.Profile.TheVariants.{Stated};
ghost use Rattle.store_adoption.specs.Creates.{IsSettled};
ghost use Rattle.store_adoption.specs.Inspects.{IsStoreUnder};
ghost use Rattle.store_maps.specs.Held.{IsStoreOf};
ghost use Rattle.store_sql.specs.Statements.{IsDurable};
ghost use Rattle.test_program.specs.Shelves.{after_these, octets_under, statements_at};

use cli::{Extent, Failure, Source, Stores};
use cli_store::failed;
use relying::Fault;
use sqlite::{Connection, FileStore, Files, Options};
use sqlite_disk::{Fuse, Memory};
use statements_facts::{Facts, Profile};
use std::alloc::Global;
use store::{ReopenFault, Store};
use store_sql::StoreFault;

/// A file.
#[derive(Drop)]
pub struct Text<'t> {
    pub name: &'t str,
    pub octets: Vec<u8>,
}

/// A store: the statements that are put into it, in order.
#[derive(Drop)]
pub struct Kept<'t> {
    pub path: &'t str,
    pub statements: Vec<Facts<'t>>,
}

/// Disks in memory, which may stop at a call.
pub type Disks = Fuse<Memory>;

/// What disks are made of: memory, and how many calls each of them answers.
#[derive(Clone, Copy)]
pub struct Medium {
    pub alloc: Global,
    pub calls: u64,
}

/// Files that are texts, and stores in memory, each of which is made anew whenever it is opened.
#[derive(Drop)]
pub struct Shelf<'t> {
    pub medium: Medium,
    pub texts: Vec<Text<'t>>,
    pub stores: Vec<Kept<'t>>,
}

// The octets of the first text of this name.
pub(crate) fn text_of<'s>(texts: &'s [Text<'_>], name: &str) -> Option<&'s [u8]>
    ensures { option_map (λ octets. octets.now) result ≡ octets_under texts.now name.now }
{
    for text in texts {
        if text.name == name {
            return Some(text.octets.as_slice());
        }
    }
    None
}

// The statements of the first store of this path.
fn rows_of<'s, 't>(stores: &'s [Kept<'t>], path: &str) -> Option<&'s [Facts<'t>]>
    ensures { option_map (λ rows. rows.now) result ≡ statements_at stores.now path.now }
{
    for kept in stores {
        if kept.path == path {
            return Some(kept.statements.as_slice());
        }
    }
    None
}

// A disk in memory returns what was written to it.
fn memory_is_clean(conn: &Connection<FileStore<Disks>>)
    ensures { HasCleanDisk (file_state conn.now) }
{}

// An empty database.
fn connected(medium: Medium) -> Result<Connection<FileStore<Disks>>, StoreFault>
    ensures idle { IfOk result (λ conn. conn.in_transaction ≡ false) }
    ensures fails { IfErr result (λ fault. fault ≢ StoreFault.Schema) }
{
    let files = Files {
        log: Fuse::new(Memory::new(medium.alloc), medium.calls),
        db: Fuse::new(Memory::new(medium.alloc), medium.calls),
    };
    if !files.may_be_used() {
        return Err(StoreFault::Store);
    }
    match Connection::open_files(medium.alloc, files, Options::new(7)) {
        Ok(conn) => Ok(conn),
        Err((error, _left)) => Err(StoreFault::from(error)),
    }
}

// A store that holds nothing.
pub(crate) fn made(medium: Medium) -> Result<Store<Disks>, StoreFault>
    ensures empty { IfOk result (λ store.
        IsStoreOf (file_state store.conn).now empty_holdings) }
    ensures open { IfOk result (λ store. IsTrue (file_state store.conn).is_open) }
    ensures settled { IfOk result (λ store. IsSettled (file_state store.conn)) }
    ensures durable { IfOk result (λ store. IsDurable (file_state store.conn)) }
    ensures fails { IfErr result (λ fault. fault ≢ StoreFault.Schema) }
{
    match Store::create(connected(medium)?) {
        Ok(store) => {
            memory_is_clean(&store.conn);
            let _settled = store.conn.is_autocommit();
            Ok(store)
        }
        Err(refused) => {
            memory_is_clean(&refused.conn);
            Err(refused.fault)
        }
    }
}

// Puts what one statement says into the store.
fn add(store: &mut Store<Disks>, facts: &Facts<'_>) -> Result<(), StoreFault>
    ensures added { OnOk result ((held : Holdings)
        → IsStoreOf (file_state store.old.conn).now held
        → IsStoreOf (file_state store.new.conn).now (after_all held (facts_in facts.now))) }
    ensures fails { IfErr result (λ fault. (held : Holdings)
        → IsStoreOf (file_state store.old.conn).now held → fault ≢ StoreFault.Schema) }
{
    let counts = store.put(facts);
    memory_is_clean(&store.conn);
    match counts {
        Ok(_) => Ok(()),
        Err(fault) => Err(fault),
    }
}

// The same of all of them.
fn fill(store: &mut Store<Disks>, rows: &[Facts<'_>]) -> Result<(), StoreFault>
    ensures filled { OnOk result ((held : Holdings)
        → IsStoreOf (file_state store.old.conn).now held
        → IsStoreOf (file_state store.new.conn).now (after_these held rows.now)) }
    ensures fails { IfErr result (λ fault. (held : Holdings)
        → IsStoreOf (file_state store.old.conn).now held → fault ≢ StoreFault.Schema) }
{
    match rows.split_first() {
        None => Ok(()),
        Some((first, others)) => {
            add(store, first)?;
            fill(store, others)
        }
    }
}

// A store into which all of them were put.
fn filled(medium: Medium, rows: &[Facts<'_>]) -> Result<Store<Disks>, StoreFault>
    ensures filled { IfOk result (λ store.
        IsStoreOf (file_state store.conn).now (after_these empty_holdings rows.now)) }
    ensures fails { IfErr result (λ fault. fault ≢ StoreFault.Schema) }
{
    let mut store = made(medium)?;
    match fill(&mut store, rows) {
        Ok(()) => Ok(store),
        Err(fault) => Err(fault),
    }
}

// The store, closed and opened again, so that a crash leaves all that it holds.
fn reopened(alloc: Global, store: Store<Disks>) -> Result<Store<Disks>, StoreFault>
    ensures holds { IfOk result (λ again. (held : Holdings)
        → IsStoreOf (file_state store.conn).now held → IsStoreOf (file_state again.conn).now held) }
    ensures clean { IfOk result (λ again. HasCleanDisk (file_state again.conn)) }
    ensures open { IfOk result (λ store. IsTrue (file_state store.conn).is_open) }
    ensures settled { IfOk result (λ again. IsSettled (file_state again.conn)) }
    ensures durable { IfOk result (λ again. IsDurable (file_state again.conn)) }
    ensures fails { IfErr result (λ fault. (held : Holdings)
        → IsStoreOf (file_state store.conn).now held → fault ≢ StoreFault.Schema) }
{
    match store.reopen(alloc) {
        Ok(again) => {
            memory_is_clean(&again.conn);
            let _settled = again.conn.is_autocommit();
            Ok(again)
        }
        Err(ReopenFault::Close(fault, _)) => Err(fault),
        Err(ReopenFault::Open(fault, _)) => Err(fault),
        Err(ReopenFault::Adopt(refused)) => {
            memory_is_clean(&refused.conn);
            Err(refused.fault)
        }
    }
}

// A store that holds what the statements say, all of it committed.
fn standing(medium: Medium, rows: &[Facts<'_>]) -> Result<Store<Disks>, StoreFault>
    ensures holds { IfOk result (λ store.
        IsStoreOf (file_state store.conn).now (after_these empty_holdings rows.now)) }
    ensures profile { IfOk result (λ store. IsStoreUnder Stated (file_state store.conn).now) }
    ensures clean { IfOk result (λ store. HasCleanDisk (file_state store.conn)) }
    ensures open { IfOk result (λ store. IsTrue (file_state store.conn).is_open) }
    ensures settled { IfOk result (λ store. IsSettled (file_state store.conn)) }
    ensures durable { IfOk result (λ store. IsDurable (file_state store.conn)) }
    ensures fails { IfErr result (λ fault. fault ≢ StoreFault.Schema) }
{
    let store = filled(medium, rows)?;
    reopened(medium.alloc, store)
}

impl Source for Shelf<'_> {
    ghost use Rattle.test_program.specs.Shelves.{holding_in};

    ghost holds = { λ shelf. holding_in shelf.texts.items };

    fn profile(&self) -> Profile {
        Profile::Stated
    }

    fn octets_of<'a>(&self, file: &'a str, _extent: Extent) -> Result<Vec<u8>, Failure<'a>> {
        match text_of(self.texts.as_slice(), file) {
            Some(octets) => Vec::from_slice(self.medium.alloc, octets).map_err(
                |_| Failure::NoMemory,
            ),
            None => Err(Failure::Unreadable { file }),
        }
    }
}

impl Stores<Store<Disks>> for Shelf<'_> {
    ghost use Rattle.test_program.specs.Shelves.{places_on};

    ghost places = { λ shelf. places_on shelf.stores.items };

    fn open_store<'a>(&self, path: &'a str) -> Result<Store<Disks>, Failure<'a>> {
        let Some(rows) = rows_of(self.stores.as_slice(), path) else {
            return Err(Failure::Unreadable { file: path });
        };
        match standing(self.medium, rows) {
            Ok(store) => Ok(store),
            Err(fault) => Err(failed(Fault::Store(fault))),
        }
    }

    fn open_or_make_store<'a>(&self, path: &'a str) -> Result<Store<Disks>, Failure<'a>> {
        match rows_of(self.stores.as_slice(), path) {
            Some(rows) => match standing(self.medium, rows) {
                Ok(store) => Ok(store),
                Err(fault) => Err(failed(Fault::Store(fault))),
            },
            None => match made(self.medium) {
                Ok(store) => Ok(store),
                Err(fault) => Err(failed(Fault::Store(fault))),
            },
        }
    }

    fn close_store(&self, _path: &str, store: Store<Disks>) {
        memory_is_clean(&store.conn);
        let _ = store.into_files();
    }
}
