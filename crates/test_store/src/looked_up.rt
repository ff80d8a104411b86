//! What was put is found.

use crate::steps::Step::{Add, Execute, HasId, Lists, Make, PutEntries, PutList, PutSingle, Says};
use crate::steps::{Step, undone};
use statements_facts::{Listed, Scope, Single, Status};
use std::test::Fail;
use store_rows::ListKey;
use store_sql::StoreFault;

/// The list of the first issuer.
const ALL: ListKey = ListKey {
    issuer: 1,
    scope: Scope::All,
};

const USER: ListKey = ListKey {
    issuer: 1,
    scope: Scope::User,
};

const ENTRIES: &[Step] = &[
    Make,
    Add(b"key"),
    HasId(b"key", 1),
    PutList(USER, 5),
    PutEntries(
        USER,
        &[
            Listed {
                serial: &[7],
                reason: 3,
            },
            Listed {
                serial: &[5],
                reason: 1,
            },
            Listed {
                serial: &[6, 0],
                reason: 2,
            },
        ],
    ),
    Lists(b"key", Scope::User, &[5], Ok((5, 1))),
    Lists(b"key", Scope::User, &[6, 0], Ok((5, 2))),
    Lists(b"key", Scope::User, &[7], Ok((5, 3))),
    Lists(b"key", Scope::User, &[4], Ok((5, 255))),
    Lists(b"key", Scope::User, &[6], Ok((5, 255))),
    Lists(b"key", Scope::User, &[8], Ok((5, 255))),
    Lists(b"key", Scope::All, &[5], Ok((0, 255))),
];

const SHORTER: &[Step] = &[
    Make,
    Add(b"key"),
    PutList(ALL, 5),
    PutEntries(
        ALL,
        &[
            Listed {
                serial: &[5],
                reason: 1,
            },
            Listed {
                serial: &[6],
                reason: 1,
            },
        ],
    ),
    PutList(ALL, 6),
    PutEntries(
        ALL,
        &[Listed {
            serial: &[4],
            reason: 0,
        }],
    ),
    Lists(b"key", Scope::All, &[4], Ok((6, 0))),
    Lists(b"key", Scope::All, &[6], Ok((6, 255))),
];

const ANOTHER_KEY: &[Step] = &[
    Make,
    Add(b"key"),
    PutList(ALL, 5),
    Lists(b"other", Scope::All, &[5], Ok((0, 255))),
    Add(b"other"),
    HasId(b"other", 2),
    Lists(b"other", Scope::All, &[5], Ok((0, 255))),
    HasId(b"key", 1),
];

const SINGLE: Single<'static> = Single {
    name_hash: [0x11; 20],
    serial: &[5],
    this_update: 1,
    produced_at: 2,
    from: 3,
    until: -4,
    status: Status::Revoked(4),
};

const SINGLES: &[Step] = &[
    Make,
    Add(b"key"),
    HasId(b"key", 1),
    PutSingle(1, SINGLE),
    PutSingle(1, SINGLE),
    Says(b"key", SINGLE),
];

const OTHER_FORM: &[Step] = &[
    Make,
    Add(b"key"),
    PutList(ALL, 5),
    Execute("UPDATE scoped_crls SET number = x'05'"),
    Lists(b"key", Scope::All, &[5], Err(StoreFault::Schema)),
];

#[test]
fn entries_of_a_list(rt: HostRuntime) -> Result<(), Fail> {
    assert!(rt; undone(rt.alloc(), ENTRIES).is_none());
    Ok(())
}

#[test]
fn a_shorter_list(rt: HostRuntime) -> Result<(), Fail> {
    assert!(rt; undone(rt.alloc(), SHORTER).is_none());
    Ok(())
}

#[test]
fn another_key(rt: HostRuntime) -> Result<(), Fail> {
    assert!(rt; undone(rt.alloc(), ANOTHER_KEY).is_none());
    Ok(())
}

#[test]
fn a_single_response(rt: HostRuntime) -> Result<(), Fail> {
    assert!(rt; undone(rt.alloc(), SINGLES).is_none());
    Ok(())
}

#[test]
fn a_row_of_another_form(rt: HostRuntime) -> Result<(), Fail> {
    assert!(rt; undone(rt.alloc(), OTHER_FORM).is_none());
    Ok(())
}
