//! Faults of runs as they are printed.

use crate::telling::after;
use relying::RunFault;
use sqlite::{Connection, Files, Options};
use sqlite_disk::Memory;
use std::alloc::Global;
use std::fmt::Display;
use store::{Refused, ReopenFault};
use store_sql::StoreFault;
use vectors::ToyVerifier;

/// Whether the value is printed so.
pub fn is_printed<T: Display>(alloc: Global, value: &T, text: &str) -> bool {
    match format!(in alloc; "{value}") {
        Ok(printed) => printed.as_str() == text,
        Err(_) => false,
    }
}

type Stopped = RunFault<ToyVerifier, Memory>;

/// A connection that is not taken for a store.
fn refused(alloc: Global) -> Option<Refused<Memory>> {
    let files = Files {
        log: Memory::new(alloc),
        db: Memory::new(alloc),
    };
    let fault = StoreFault::Schema;
    match Connection::open_files(alloc, files, Options::new(7)) {
        Ok(conn) => Some(Refused { fault, conn }),
        Err(_) => None,
    }
}

fn restart_is_printed(alloc: Global) -> Option<bool> {
    let fault: Stopped = RunFault::Restart(3, ReopenFault::Adopt(refused(alloc)?));
    let text =
        "restart behind 3 events: the database is not taken for a store: fault 72: the tables are not those of a store";
    Some(is_printed(alloc, &fault, text))
}

#[test]
fn a_failed_restart(rt: HostRuntime) {
    assert_eq!(rt; restart_is_printed(rt.alloc()), Some(true));
}

fn want_of_room_is_printed(alloc: Global) -> Option<bool> {
    let (party, _answers) = after(alloc, &[])?;
    let fault: Stopped = RunFault::NoRoom(party);
    Some(is_printed(alloc, &fault, "no memory for the answers"))
}

#[test]
fn no_room_for_answers(rt: HostRuntime) {
    assert_eq!(rt; want_of_room_is_printed(rt.alloc()), Some(true));
}
