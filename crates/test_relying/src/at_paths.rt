//! Stores at paths of the system's files.

use crate::printing::is_printed;
use sqlite::{Alter, Connection};
use std::fs;
use std::io::ErrorKind;
use std::test::Fail;
use store::{OpenFault, Store};
use store_sql::StoreFault;

/// What `open` and `make` answer at a path.
#[derive(Clone, Copy, Debug, PartialEq, Eq)]
enum Answer {
    Store,
    /// There is no connection to a database.
    Unconnected(StoreFault),
    /// A connection comes back.
    Refused(StoreFault),
}

fn refusal(fault: &OpenFault) -> Answer {
    match fault {
        OpenFault::Unconnected(fault) => Answer::Unconnected(*fault),
        OpenFault::Refused(refused) => Answer::Refused(refused.fault),
    }
}

fn opened(rt: &HostRuntime, path: &str) -> Answer {
    match Store::open(rt, path) {
        Ok(_) => Answer::Store,
        Err(fault) => refusal(&fault),
    }
}

fn made(rt: &HostRuntime, path: &str) -> Answer {
    match Store::make(rt, path) {
        Ok(_) => Answer::Store,
        Err(fault) => refusal(&fault),
    }
}

/// Whether a store at the path is not opened, which is told in these words.
fn is_refused_as(rt: &HostRuntime, path: &str, text: &str) -> bool {
    match Store::open(rt, path) {
        Ok(_) => false,
        Err(fault) => is_printed(rt.alloc(), &fault, text),
    }
}

#[test]
fn a_store_is_made_once_and_opened_again(rt: HostRuntime) -> Result<(), Fail> {
    let path = "at_paths.store";
    let _gone = fs::remove_file(&rt, path);
    let text = "there is no database at the path: fault 71: the database refused";
    assert_eq!(rt; opened(&rt, path), Answer::Unconnected(StoreFault::Store));
    assert!(rt; is_refused_as(&rt, path, text));
    assert_eq!(rt; made(&rt, path), Answer::Store);
    assert_eq!(rt; made(&rt, path), Answer::Unconnected(StoreFault::Store));
    assert_eq!(rt; opened(&rt, path), Answer::Store);
    fs::remove_file(&rt, path)?;
    Ok(())
}

#[test]
fn a_file_that_is_no_database_is_left(rt: HostRuntime) -> Result<(), Fail> {
    let path = "at_paths.text";
    let text = b"This is no database, and it is not made one.".as_slice();
    fs::write(&rt, path, text)?;
    assert_eq!(rt; opened(&rt, path), Answer::Unconnected(StoreFault::Store));
    assert_eq!(rt; made(&rt, path), Answer::Unconnected(StoreFault::Store));
    assert!(rt; fs::read(&rt, path)?.as_slice() == text);
    fs::remove_file(&rt, path)?;
    Ok(())
}

/// A database with a table of another program.
fn is_filled(rt: &HostRuntime, path: &str) -> bool {
    match Connection::open(rt, path) {
        Ok(mut conn) => conn
            .execute_batch("CREATE TABLE note (id INTEGER PRIMARY KEY) STRICT")
            .is_ok(),
        Err(_) => false,
    }
}

fn count<S: Alter>(conn: &mut Connection<S>) -> Option<i64> {
    conn.query_row("SELECT count(*) FROM sqlite_schema", &[])
        .ok()?
        .get(0)
        .ok()
}

/// How many tables and indexes a database has.
fn tables(rt: &HostRuntime, path: &str) -> Option<i64> {
    match Connection::open(rt, path) {
        Ok(mut conn) => count(&mut conn),
        Err(_) => None,
    }
}

#[test]
fn a_database_of_another_program_comes_back(rt: HostRuntime) -> Result<(), Fail> {
    let path = "at_paths.other";
    let _gone = fs::remove_file(&rt, path);
    let text =
        "the database is not taken for a store: fault 72: the tables are not those of a store";
    assert!(rt; is_filled(&rt, path));
    assert_eq!(rt; opened(&rt, path), Answer::Refused(StoreFault::Schema));
    assert!(rt; is_refused_as(&rt, path, text));
    assert_eq!(rt; made(&rt, path), Answer::Unconnected(StoreFault::Store));
    assert_eq!(rt; tables(&rt, path), Some(1));
    fs::remove_file(&rt, path)?;
    Ok(())
}

/// An empty file is an empty database, and opening makes no store of it.
#[test]
fn an_empty_file_is_left(rt: HostRuntime) -> Result<(), Fail> {
    let path = "at_paths.empty";
    fs::write(&rt, path, b"".as_slice())?;
    assert_eq!(rt; opened(&rt, path), Answer::Refused(StoreFault::Schema));
    assert_eq!(rt; made(&rt, path), Answer::Unconnected(StoreFault::Store));
    assert_eq!(rt; opened(&rt, path), Answer::Refused(StoreFault::Schema));
    fs::remove_file(&rt, path)?;
    Ok(())
}

/// Paths at which there can be no file, or which SQLite reads as other things than the name of one.
const NO_FILES: &[&str] = &["at_paths.none/store", ":memory:", "file:at_paths.uri"];

#[test]
fn no_store_is_made_of_another_thing_than_a_file(rt: HostRuntime) -> Result<(), Fail> {
    for path in NO_FILES {
        assert_eq!(rt; made(&rt, path), Answer::Unconnected(StoreFault::Store));
        assert_eq!(rt; opened(&rt, path), Answer::Unconnected(StoreFault::Store));
    }
    Ok(())
}

fn is_answer_or_want(answer: Answer) -> bool {
    match answer {
        Answer::Store => true,
        Answer::Unconnected(fault) | Answer::Refused(fault) => fault == StoreFault::Memory,
    }
}

/// Whether there is no file at the path now.
fn is_removed(rt: &HostRuntime, path: &str) -> bool {
    match fs::remove_file(rt, path) {
        Ok(()) => true,
        Err(error) => error.kind() == ErrorKind::NotFound,
    }
}

/// Whichever request for memory is refused, a store is made and opened, or memory ran out: no disk failed here.
#[test]
fn making_and_opening_want_memory_or_answer(rt: HostRuntime) {
    let path = "at_paths.memory";
    let made = if is_removed(&rt, path) {
        made(&rt, path)
    } else {
        Answer::Refused(StoreFault::Memory)
    };
    let opened = if made == Answer::Store {
        opened(&rt, path)
    } else {
        made
    };
    let _gone = is_removed(&rt, path);
    assert!(rt; is_answer_or_want(made) && is_answer_or_want(opened));
}
