//! A store whose files in memory last from run to run.
ghost use Rattle.std.specs.Prelude.{◌≡◌, false, IfOk};
ghost use Rattle.sqlite.specs.Files.{file_state};
ghost use Rattle.statements_facts.specs.declared.profile.Profile.TheVariants.{Stated};
ghost use Rattle.store.specs.Adopts.{IsOpenOn, IsStoreOn};
ghost use Rattle.store_adoption.specs.Creates.{IsSettled};
ghost use Rattle.store_sql.specs.Statements.{IsDurable};

use crate::shelf::{Disks, Medium, Text, made, text_of};
use cli::{Extent, Failure, Source, Stores};
use cli_store::failed;
use relying::Fault;
use sqlite::{Connection, FileStore, Files, Options};
use statements_facts::Profile;
use std::alloc::Global;
use std::cell::RefCell;
use store::{Refused, Store};
use store_sql::StoreFault;

/// Files that are texts, and one store, at whatever path: a run finds its two files as the last one left them.
#[derive(Drop)]
pub struct LastingStore<'t> {
    pub alloc: Global,
    pub texts: Vec<Text<'t>>,
    /// None, if no store was made yet. While a store is open they are away.
    pub files: RefCell<Option<Files<Disks>>>,
}

// Few pages, which are taken at once.
fn options() -> Options {
    let mut options = Options::new(7);
    options.cache_pages = 16;
    options
}

// What SQLite leaves of a connection.
fn left_of(conn: Connection<FileStore<Disks>>) -> Files<Disks> {
    match conn.close_files() {
        Ok(files) => files,
        Err((_error, left)) => left.close(),
    }
}

impl LastingStore<'_> {
    // Puts the files back. Nobody looks at them meanwhile.
    fn put_back(&self, files: Files<Disks>) {
        let _ = self.files.try_replace(Some(files));
    }

    fn take_away(&self) -> Option<Files<Disks>> {
        match self.files.try_replace(None) {
            Ok(files) => files,
            Err(_) => None,
        }
    }

    // What new files are made of.
    fn medium(&self) -> Medium {
        Medium {
            alloc: self.alloc,
            calls: u64::MAX,
        }
    }

    // A connection to the database in the files.
    fn connect(&self, files: Files<Disks>) -> Result<Connection<FileStore<Disks>>, StoreFault>
        ensures idle { IfOk result (λ conn. conn.in_transaction ≡ false) }
    {
        if !files.may_be_used() {
            self.put_back(files);
            return Err(StoreFault::Store);
        }
        match Connection::open_files(self.alloc, files, options()) {
            Ok(conn) => Ok(conn),
            Err((error, left)) => {
                self.put_back(left.into_files());
                Err(StoreFault::from(error))
            }
        }
    }

    // The store in the files.
    fn open(&self, files: Files<Disks>) -> Result<Store<Disks>, StoreFault>
        ensures store { IfOk result (λ store. IsStoreOn Stated store.conn) }
        ensures is_open { IfOk result (λ store. IsOpenOn store.conn) }
        ensures settled { IfOk result (λ store. IsSettled (file_state store.conn)) }
        ensures durable { IfOk result (λ store. IsDurable (file_state store.conn)) }
    {
        let conn = match self.connect(files) {
            Ok(conn) => conn,
            Err(fault) => return Err(fault),
        };
        match Store::adopt(self.alloc, conn) {
            Ok(store) => Ok(store),
            Err(refused) => {
                let Refused { fault, conn } = refused;
                self.put_back(left_of(conn));
                Err(fault)
            }
        }
    }
}

impl Source for LastingStore<'_> {
    ghost use Rattle.test_program.specs.Shelves.{holding_in};

    ghost holds = { λ lasting. holding_in lasting.texts.items };

    fn profile(&self) -> Profile {
        Profile::Stated
    }

    fn octets_of<'a>(&self, file: &'a str, _extent: Extent) -> Result<Vec<u8>, Failure<'a>> {
        match text_of(self.texts.as_slice(), file) {
            Some(octets) => Vec::from_slice(self.alloc, octets).map_err(|_| Failure::NoMemory),
            None => Err(Failure::Unreadable { file }),
        }
    }
}

impl Stores<Store<Disks>> for LastingStore<'_> {
    ghost use Rattle.test_program.specs.Lasting.{anything};

    ghost places = { λ _. anything };

    fn open_store<'a>(&self, path: &'a str) -> Result<Store<Disks>, Failure<'a>> {
        let Some(files) = self.take_away() else {
            return Err(Failure::Unreadable { file: path });
        };
        match self.open(files) {
            Ok(store) => Ok(store),
            Err(fault) => Err(failed(Fault::Store(fault))),
        }
    }

    fn open_or_make_store<'a>(&self, _path: &'a str) -> Result<Store<Disks>, Failure<'a>> {
        match self.take_away() {
            Some(files) => match self.open(files) {
                Ok(store) => Ok(store),
                Err(fault) => Err(failed(Fault::Store(fault))),
            },
            None => match made(self.medium()) {
                Ok(store) => Ok(store),
                Err(fault) => Err(failed(Fault::Store(fault))),
            },
        }
    }

    fn close_store(&self, _path: &str, store: Store<Disks>) {
        let files = match store.into_files() {
            Ok(files) => files,
            Err((_fault, left)) => left.close(),
        };
        self.put_back(files);
    }
}
