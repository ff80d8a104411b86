//! Work on a database over files, which may stop.

use crate::finding::{Found, is_one_of};
use crate::putting::{Row, Statement, puts, tells};
use sqlite::{Alter, Connection, FileStore, Files, Options};
use sqlite_disk::Disk;
use statements_facts::Profile;
use std::alloc::Global;
use store::{Refused, ReopenFault, Store, take_over};
use store_adoption::create;
use store_migration::version_1_tables;
use store_sql::{StoreFault, is_version_1};

/// What is done with a database.
#[derive(Clone, Copy)]
pub enum Work {
    /// A store is made.
    Make(Version),
    /// It is taken for a store.
    TakeOver(Then),
    /// It is taken for a store, whose files are closed and opened again.
    Reopen,
}

#[derive(Clone, Copy)]
pub enum Version {
    /// Version 1, with these rows.
    Old(&'static str),
    New,
}

/// What is done with what was taken for a store.
#[derive(Clone, Copy)]
pub enum Then {
    Nothing,
    Put(Statement),
    /// It holds these.
    Look(&'static [Row]),
    /// It is one of these.
    Find(&'static [Found]),
}

/// How far the work came.
#[derive(Clone, Copy, PartialEq, Eq)]
pub enum Progress {
    NotOpened,
    /// It was refused with another fault than 71, which is that of a disk that fails, or in other words.
    Mistold,
    /// It was not answered that it was done.
    Stopped,
    /// It was, and then the files were not closed.
    Done,
    /// It was, and the files were closed.
    Closed,
}

/// What is not so is told as what a disk that fails leaves.
fn done_if(is_so: bool) -> Result<(), StoreFault> {
    if is_so {
        Ok(())
    } else {
        Err(StoreFault::Store)
    }
}

/// The rest is done to a database that was of version 1 or not, and was taken for a store or not.
fn follows<S: Alter>(
    alloc: Global,
    conn: &mut Connection<S>,
    then: Then,
    was_old: bool,
    taken: Result<(), StoreFault>,
) -> Result<(), StoreFault> {
    match then {
        Then::Nothing => taken,
        Then::Put(statement) => taken.and(puts(alloc, conn, statement)),
        Then::Look(rows) => taken.and(tells(alloc, conn, rows)),
        Then::Find(wanted) => done_if(is_one_of(alloc, conn, wanted, was_old, taken)),
    }
}

/// The database is taken for a store.
fn take<D: Disk + Drop>(
    alloc: Global,
    conn: &mut Connection<FileStore<D>>,
) -> Result<(), StoreFault> {
    if !conn.is_autocommit() {
        return Err(StoreFault::Store);
    }
    take_over(alloc, Profile::Stated, conn)
}

/// A store is made.
fn makes<S: Alter>(conn: &mut Connection<S>, version: Version) -> Result<(), StoreFault> {
    if !conn.is_autocommit() {
        return Err(StoreFault::Store);
    }
    match version {
        Version::Old(rows) => done_if(
            conn.execute_batch(version_1_tables()).is_ok() && conn.execute_batch(rows).is_ok(),
        ),
        Version::New => create(conn, Profile::Stated),
    }
}

/// The database is taken for a store, and the rest is done to it.
fn takes<D: Disk + Drop>(
    alloc: Global,
    conn: &mut Connection<FileStore<D>>,
    then: Then,
) -> Result<(), StoreFault> {
    let was_old = is_version_1(conn.schema());
    let taken = take(alloc, conn);
    follows(alloc, conn, then, was_old, taken)
}

fn progress_of(done: Result<(), StoreFault>, is_closed: bool) -> Progress {
    match done {
        Err(StoreFault::Store) => Progress::Stopped,
        Err(_) => Progress::Mistold,
        Ok(()) => {
            if is_closed {
                Progress::Closed
            } else {
                Progress::Done
            }
        }
    }
}

fn closed<D: Disk + Drop>(
    conn: Connection<FileStore<D>>,
    done: Result<(), StoreFault>,
) -> (Files<D>, Progress) {
    match conn.close_files() {
        Ok(files) => (files, progress_of(done, true)),
        Err((_error, store)) => (store.close(), progress_of(done, false)),
    }
}

fn closed_store<D: Disk + Drop>(store: Store<D>) -> (Files<D>, Progress) {
    match store.into_files() {
        Ok(files) => (files, Progress::Closed),
        Err((StoreFault::Store, left)) => (left.close(), Progress::Done),
        Err((_, left)) => (left.close(), Progress::Mistold),
    }
}

/// Whether the fault is printed as that of its step.
fn is_printed<D: Disk + Drop>(alloc: Global, fault: &ReopenFault<D>) -> bool {
    let text = match fault {
        ReopenFault::Close(_, _) => "the store cannot be closed: fault 71: the database refused",
        ReopenFault::Open(_, _) =>
            "the store cannot be opened again: fault 71: the database refused",
        ReopenFault::Adopt(_) => {
            "the database is not taken for a store: fault 71: the database refused"
        }
    };
    match format!(in alloc; "{fault}") {
        Ok(printed) => printed.as_str() == text,
        Err(_) => false,
    }
}

fn left_by<D: Disk + Drop>(fault: ReopenFault<D>) -> (Files<D>, Progress) {
    match fault {
        ReopenFault::Close(fault, left) => (left.close(), progress_of(Err(fault), false)),
        ReopenFault::Open(fault, left) => (left.into_files(), progress_of(Err(fault), false)),
        ReopenFault::Adopt(Refused { fault, conn }) => closed(conn, Err(fault)),
    }
}

fn not_restarted<D: Disk + Drop>(alloc: Global, fault: ReopenFault<D>) -> (Files<D>, Progress) {
    let is_told = is_printed(alloc, &fault);
    let (files, progress) = left_by(fault);
    (files, if is_told { progress } else { Progress::Mistold })
}

fn restarted<D: Disk + Drop>(alloc: Global, store: Store<D>) -> (Files<D>, Progress) {
    match store.reopen(alloc) {
        Ok(store) => closed_store(store),
        Err(fault) => not_restarted(alloc, fault),
    }
}

fn reopened<D: Disk + Drop>(alloc: Global, conn: Connection<FileStore<D>>) -> (Files<D>, Progress) {
    if !conn.is_autocommit() {
        return closed(conn, Err(StoreFault::Store));
    }
    match Store::adopt(alloc, conn) {
        Ok(store) => restarted(alloc, store),
        Err(Refused { fault, conn }) => closed(conn, Err(fault)),
    }
}

/// The work is done, or the fault is answered, and the files are closed.
fn works<D: Disk + Drop>(
    alloc: Global,
    mut conn: Connection<FileStore<D>>,
    work: &Work,
) -> (Files<D>, Progress) {
    let done = match *work {
        Work::Make(version) => makes(&mut conn, version),
        Work::TakeOver(then) => takes(alloc, &mut conn, then),
        Work::Reopen => return reopened(alloc, conn),
    };
    closed(conn, done)
}

/// A database over the files is opened, worked on and closed.
pub fn run<D: Disk + Drop>(alloc: Global, files: Files<D>, work: &Work) -> (Files<D>, Progress) {
    if !files.may_be_used() {
        return (files, Progress::NotOpened);
    }
    match Connection::open_files(alloc, files, Options::new(7)) {
        Ok(conn) => works(alloc, conn, work),
        Err((_error, left)) => (left.into_files(), Progress::NotOpened),
    }
}
