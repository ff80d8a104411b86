//! Why there is no store, and what is left.

ghost use Rattle.std.specs.Prelude.{◌≡◌, false};

use sqlite::{Connection, FileStore, Leftover};
use sqlite_disk::Disk;
use sqlite_std_file::File;
use std::fmt;
use store_sql::StoreFault;

/// A connection that is not taken for a store, as it was, and why.
#[derive(Drop)]
pub struct Refused<D: Disk> {
    pub fault: StoreFault,
    pub conn: Connection<FileStore<D>>,
    pub ghost idle: { conn.in_transaction ≡ false },
}

impl<D: Disk> fmt::Display for Refused<D> {
    fn fmt<W: fmt::Write>(&self, f: &mut fmt::Formatter<W>) -> fmt::Result {
        write!(f, "the database is not taken for a store: {}", self.fault)
    }
}

/// Why a store is not taken for one again behind a restart, and what is left of it.
#[derive(Drop)]
pub enum ReopenFault<D: Disk> {
    /// Its files could not be closed.
    Close(StoreFault, FileStore<D>),
    /// They were closed, and could not be opened.
    Open(StoreFault, Leftover<D>),
    /// They were opened, and are not taken for a store.
    Adopt(Refused<D>),
}

impl<D: Disk> fmt::Display for ReopenFault<D> {
    fn fmt<W: fmt::Write>(&self, f: &mut fmt::Formatter<W>) -> fmt::Result {
        match self {
            ReopenFault::Close(fault, _) => write!(f, "the store cannot be closed: {fault}"),
            ReopenFault::Open(fault, _) => write!(f, "the store cannot be opened again: {fault}"),
            ReopenFault::Adopt(refused) => write!(f, "{refused}"),
        }
    }
}

/// Why no store is opened or made at a path.
#[derive(Drop)]
pub enum OpenFault<D: Disk = File> {
    /// There is no connection to a database: a file is missing, in the way or no database, or memory ran out.
    Unconnected(StoreFault),
    /// The connection that was opened, which is not taken for a store.
    Refused(Refused<D>),
}

impl<D: Disk> fmt::Display for OpenFault<D> {
    fn fmt<W: fmt::Write>(&self, f: &mut fmt::Formatter<W>) -> fmt::Result {
        match self {
            OpenFault::Unconnected(fault) => write!(f, "there is no database at the path: {fault}"),
            OpenFault::Refused(refused) => write!(f, "{refused}"),
        }
    }
}

impl<D: Disk> From<StoreFault> for OpenFault<D> {
    ghost use Rattle.std.specs.Prelude.{◌≡◌};
    ghost use Rattle.store.specs.declared.refusal.OpenFault.TheVariants.{Unconnected};

    ghost from_gives = { λ fault unopened. unopened ≡ Unconnected fault };

    fn from(fault: StoreFault) -> OpenFault<D> {
        OpenFault::Unconnected(fault)
    }
}

impl<D: Disk> From<Refused<D>> for OpenFault<D> {
    ghost use Rattle.std.specs.Prelude.{◌≡◌};
    ghost use Rattle.store.specs.declared.refusal.OpenFault.TheVariants.{Refused as IsRefused};

    ghost from_gives = { λ refused unopened. unopened ≡ IsRefused refused };

    fn from(refused: Refused<D>) -> OpenFault<D> {
        OpenFault::Refused(refused)
    }
}
