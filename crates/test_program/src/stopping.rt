//! Sessions whose disk stops, and what the next start finds.

use crate::lasting::LastingStore;
use crate::later_runs::begun;
use crate::shelf::Disks;
use crate::walking::{Printed, Runs, is_printed};
use sqlite::Files;
use sqlite_disk::{Crash, Disk, Fuse, Memory};
use std::alloc::Global;
use std::test::Fail;

const DELIVER: &str = "deliver --store s --verdicts good --issuer r.der c.crl";

const SESSION: &str = "session --store s --verdicts good";

const CHECK: &str = "check --store s --verdicts good --at 20250615000000Z --anchor r.der m.der";

// What the session reads: a list that revokes the certificate, and the question about it.
const REQUESTS: &[u8] = b"deliver r.der d.crl\ncheck 20250615000000Z r.der m.der\nquit\n";

/// A session that ended so, and what the next check may say then.
#[derive(Clone, Copy)]
struct End {
    status: u8,
    out: &'static str,
    next: &'static [(u8, &'static str)],
}

const VALID: (u8, &str) = (0, "valid\n");

const REVOKED: (u8, &str) = (2, "revoked 1 1\n");

// The disk stops before the store is open, in the delivery, behind it, or not at all. What was answered is so behind the next start; if the
// delivery failed, the list is there or not. The session ends behind a refusal if the connection was shut by it, and else goes on.
const ENDS: &[End] = &[
    End {
        status: 6,
        out: "",
        next: &[VALID],
    },
    SHUT,
    End {
        status: 6,
        out: "6 store fault 71\n6 store fault 71\n",
        next: &[VALID, REVOKED],
    },
    End {
        status: 0,
        out: "6 store fault 71\n6 store fault 71\n0 ended\n",
        next: &[VALID, REVOKED],
    },
    End {
        status: 0,
        out: "6 store fault 71\n0 valid\n0 ended\n",
        next: &[VALID, REVOKED],
    },
    End {
        status: 6,
        out: "0 stored 1 kept 0 contradicted 0\n6 store fault 71\n",
        next: &[REVOKED],
    },
    End {
        status: 0,
        out: "0 stored 1 kept 0 contradicted 0\n6 store fault 71\n0 ended\n",
        next: &[REVOKED],
    },
    WHOLE,
];

const SHUT: End = End {
    status: 6,
    out: "6 store fault 71\n",
    next: &[VALID, REVOKED],
};

const WHOLE: End = End {
    status: 0,
    out: "0 stored 1 kept 0 contradicted 0\n2 revoked 1 1\n0 ended\n",
    next: &[REVOKED],
};

// The calls behind which the log stops: some while the store is opened, all in the delivery, and some behind it.
const LOG: &[u64] = &[
    0, 12, 20, 22, 23, 24, 25, 26, 27, 28, 29, 30, 31, 32, 33, 34, 36, 40,
];

// The database is read as the store is opened, and then the session is whole.
const DATABASE: &[u64] = &[0, 12, 24, 36, 60];

fn runs_over<'s, 't>(store: &'s LastingStore<'t>) -> Runs<'s, LastingStore<'t>> {
    Runs {
        source: store,
        alloc: store.alloc,
        input: REQUESTS,
    }
}

// A file that holds the octets, and answers so many calls.
fn disk(alloc: Global, octets: &[u8], calls: u64) -> Result<Disks, Fail> {
    let mut file = Memory::new(alloc);
    if file.may_be_used() && !octets.is_empty() {
        file.write_at(0, octets)?;
    }
    if file.may_be_used() {
        file.sync()?;
    }
    Ok(Fuse::new(file, calls))
}

/// How many calls each file answers.
#[derive(Clone, Copy)]
struct Calls {
    log: u64,
    database: u64,
}

// The same files, which answer so many calls.
fn disks(alloc: Global, files: &Files<Disks>, calls: Calls) -> Result<Files<Disks>, Fail> {
    Ok(Files {
        log: disk(alloc, files.log.inner().bytes(), calls.log)?,
        db: disk(alloc, files.db.inner().bytes(), calls.database)?,
    })
}

fn files_of(store: &LastingStore<'_>) -> Result<Files<Disks>, Fail> {
    match store.files.try_replace(None) {
        Ok(Some(files)) => Ok(files),
        _ => Err(Fail::from("no files")),
    }
}

// The machine stops, and is started again.
fn restart(store: &LastingStore<'_>) -> Result<(), Fail> {
    let mut files = files_of(store)?;
    files.log.crash();
    files.db.crash();
    let _ = store.files.try_replace(Some(files));
    Ok(())
}

// The end of a session over files that answer so many calls, with the check behind the next start.
fn end_at(
    store: &LastingStore<'_>,
    before: &Files<Disks>,
    calls: Calls,
) -> Result<&'static End, Fail> {
    let files = disks(store.alloc, before, calls)?;
    let _ = store.files.try_replace(Some(files));
    let session = runs_over(store).run_line(SESSION)?;
    restart(store)?;
    let next = runs_over(store).run_line(CHECK)?;
    match ENDS.iter().find(|end| is_end(end, &session, &next)) {
        Some(end) => Ok(end),
        None => Err(Fail::new(format_args!(
            "no such end of {} and {} calls: {} and then {}",
            calls.log, calls.database, session.status, next.status
        ))),
    }
}

fn is_end(end: &End, session: &Printed, next: &Printed) -> bool {
    let told = if end.status == 0 {
        ""
    } else {
        "x509check: store fault 71\n"
    };
    session.status == end.status
        && session.out.as_slice() == end.out.as_bytes()
        && session.err.as_slice() == told.as_bytes()
        && end
            .next
            .iter()
            .any(|(status, text)| is_printed(next, *status, text))
}

// Whether one of the sessions ends so, whose log or database stops behind so many calls, and each of them as one may.
fn one_ends_as(
    store: &LastingStore<'_>,
    before: &Files<Disks>,
    wanted: &End,
    stops: &[Calls],
) -> Result<bool, Fail> {
    let mut ends_so = false;
    for calls in stops {
        let end = end_at(store, before, *calls)?;
        ends_so = ends_so || end.out == wanted.out;
    }
    Ok(ends_so)
}

// A store that holds the older list.
fn with_a_list(alloc: Global) -> Result<LastingStore<'static>, Fail> {
    let store = begun(alloc)?;
    runs_over(&store).run_line(DELIVER)?;
    Ok(store)
}

#[test]
fn a_session_whose_log_stops(rt: HostRuntime) -> Result<(), Fail> {
    let store = with_a_list(rt.alloc())?;
    let before = files_of(&store)?;
    let mut stops = Vec::new(rt.alloc());
    for log in LOG {
        stops.push(Calls {
            log: *log,
            database: u64::MAX,
        })?;
    }
    assert!(rt; one_ends_as(&store, &before, &SHUT, stops.as_slice())?);
    Ok(())
}

#[test]
fn a_session_whose_database_stops(rt: HostRuntime) -> Result<(), Fail> {
    let store = with_a_list(rt.alloc())?;
    let before = files_of(&store)?;
    let mut stops = Vec::new(rt.alloc());
    for database in DATABASE {
        stops.push(Calls {
            log: u64::MAX,
            database: *database,
        })?;
    }
    assert!(rt; one_ends_as(&store, &before, &WHOLE, stops.as_slice())?);
    Ok(())
}
