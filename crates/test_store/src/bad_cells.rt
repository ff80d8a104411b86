//! A cell that no store writes is refused as one: 72, and never as a database that failed.

use crate::steps::Step::{Add, Execute, Lists, Make, PutEntries, PutList, PutSingle, Refuses};
use crate::steps::{Step, undone};
use statements_facts::{Listed, Scope, Single, Status};
use std::alloc::Global;
use std::test::Fail;
use store_rows::ListKey;
use store_sql::StoreFault;

/// The list of the first issuer.
const LIST: ListKey = ListKey {
    issuer: 1,
    scope: Scope::Ca,
};

const REVOKED: Listed<'static> = Listed {
    serial: &[5],
    reason: 1,
};

const SINGLE: Single<'static> = Single {
    name_hash: [0x11; 20],
    serial: &[5],
    this_update: 1,
    produced_at: 2,
    from: 3,
    until: 4,
    status: Status::Revoked(4),
};

/// Each column that a look-up in a list reads and whose cells are of a form: just outside it.
const OF_A_LIST: &[&str] = &[
    "UPDATE issuers SET id = -1",
    "UPDATE issuers SET id = 536870911",
    "UPDATE scoped_crls SET number = x''",
    "UPDATE scoped_crls SET number = x'00000000000000000000000000000000000005'",
    "UPDATE scoped_crls SET number = x'000000000000000000000000000000000000000005'",
    "UPDATE scoped_entries SET reason = -1",
    "UPDATE scoped_entries SET reason = 256",
];

/// The same of what a response says; a reason is there only where the certificate is revoked.
const OF_A_RESPONSE: &[&str] = &[
    "UPDATE issuers SET id = -1",
    "UPDATE issuers SET id = 536870911",
    "UPDATE ocsp SET status = -1",
    "UPDATE ocsp SET status = 3",
    "UPDATE ocsp SET reason = -1",
    "UPDATE ocsp SET reason = 256",
    "UPDATE ocsp SET status = 0",
    "UPDATE ocsp SET status = 2",
];

fn list_is_refused(alloc: Global, change: &'static str) -> bool {
    let steps: &[Step] = &[
        Make,
        Add(b"key"),
        PutList(LIST, 5),
        PutEntries(LIST, &[REVOKED]),
        Lists(b"key", Scope::Ca, &[5], Ok((5, 1))),
        Execute(change),
        Lists(b"key", Scope::Ca, &[5], Err(StoreFault::Schema)),
    ];
    undone(alloc, steps).is_none()
}

fn response_is_refused(alloc: Global, change: &'static str) -> bool {
    let steps: &[Step] = &[
        Make,
        Add(b"key"),
        PutSingle(1, SINGLE),
        Execute(change),
        Refuses(b"key", SINGLE, StoreFault::Schema),
    ];
    undone(alloc, steps).is_none()
}

#[test]
fn a_cell_of_a_list(rt: HostRuntime) -> Result<(), Fail> {
    for change in OF_A_LIST {
        assert!(rt; list_is_refused(rt.alloc(), change));
    }
    Ok(())
}

#[test]
fn a_cell_of_a_response(rt: HostRuntime) -> Result<(), Fail> {
    for change in OF_A_RESPONSE {
        assert!(rt; response_is_refused(rt.alloc(), change));
    }
    Ok(())
}
