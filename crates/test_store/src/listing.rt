//! What was put is listed.

use crate::overview::List;
use crate::steps::Step::{
    Add, Execute, HoldsIssuers, HoldsLists, HoldsSingles, Make, PutEntries, PutList, PutSingle,
    RefusesListing,
};
use crate::steps::{Step, undone};
use statements_facts::{Listed, Scope, Single, Status};
use std::test::Fail;
use store_rows::ListKey;
use store_sql::StoreFault;

const ALL: ListKey = ListKey {
    issuer: 1,
    scope: Scope::All,
};

const USER: ListKey = ListKey {
    issuer: 1,
    scope: Scope::User,
};

/// The list of the second issuer.
const CA: ListKey = ListKey {
    issuer: 2,
    scope: Scope::Ca,
};

const REVOKED: Listed<'static> = Listed {
    serial: &[5],
    reason: 1,
};

const ALSO_REVOKED: Listed<'static> = Listed {
    serial: &[7],
    reason: 3,
};

const SINGLE: Single<'static> = Single {
    name_hash: [0x11; 20],
    serial: &[5],
    this_update: 1,
    produced_at: 2,
    from: 3,
    until: -4,
    status: Status::Revoked(4),
};

const OTHER_SINGLE: Single<'static> = Single {
    name_hash: [0x22; 20],
    serial: &[],
    this_update: 5,
    produced_at: 6,
    from: 7,
    until: 8,
    status: Status::Unknown,
};

const HELD: &[Step] = &[
    Make,
    HoldsIssuers(&[]),
    HoldsLists(&[]),
    HoldsSingles(&[]),
    Add(b"key"),
    Add(b"other"),
    PutList(USER, 5),
    PutEntries(USER, &[REVOKED, ALSO_REVOKED]),
    PutList(CA, 9),
    PutList(ALL, 7),
    PutEntries(ALL, &[REVOKED]),
    PutSingle(2, OTHER_SINGLE),
    PutSingle(1, SINGLE),
    HoldsIssuers(&[(1, b"key"), (2, b"other")]),
    HoldsLists(&[
        List {
            key: USER,
            number: 5,
            entries: 2,
        },
        List {
            key: CA,
            number: 9,
            entries: 0,
        },
        List {
            key: ALL,
            number: 7,
            entries: 1,
        },
    ]),
    HoldsSingles(&[(2, OTHER_SINGLE), (1, SINGLE)]),
];

const REPLACED: &[Step] = &[
    Make,
    Add(b"key"),
    PutList(USER, 5),
    PutEntries(USER, &[REVOKED, ALSO_REVOKED]),
    PutList(ALL, 6),
    PutList(USER, 8),
    PutEntries(USER, &[ALSO_REVOKED]),
    HoldsLists(&[
        List {
            key: ALL,
            number: 6,
            entries: 0,
        },
        List {
            key: USER,
            number: 8,
            entries: 1,
        },
    ]),
];

const OTHER_FORM: &[Step] = &[
    Make,
    Add(b"key"),
    PutList(ALL, 5),
    Execute("UPDATE scoped_crls SET number = x'05'"),
    RefusesListing(StoreFault::Schema),
];

#[test]
fn what_is_held(rt: HostRuntime) -> Result<(), Fail> {
    assert!(rt; undone(rt.alloc(), HELD).is_none());
    Ok(())
}

#[test]
fn a_list_in_the_place_of_another(rt: HostRuntime) -> Result<(), Fail> {
    assert!(rt; undone(rt.alloc(), REPLACED).is_none());
    Ok(())
}

#[test]
fn a_row_of_another_form(rt: HostRuntime) -> Result<(), Fail> {
    assert!(rt; undone(rt.alloc(), OTHER_FORM).is_none());
    Ok(())
}

#[test]
fn no_store(rt: HostRuntime) -> Result<(), Fail> {
    assert!(rt; undone(rt.alloc(), &[RefusesListing(StoreFault::Schema)]).is_none());
    Ok(())
}
