//! Stores that are made, statements that are delivered, and stores of version 1 that are migrated.

use crate::finding::{Found, Holding};
use crate::putting::{NAME_HASH, Row, Statement};
use crate::stopping::{Trial, is_whole};
use crate::working::{Then, Version, Work};
use statements_facts::{Listed, Single, Status};

const NOTHING: Holding = Holding {
    rows: &[(b"\x05", (0, 255), None)],
    counts: (0, 0),
};

/// A store that holds nothing, or none.
const MADE: Trial = Trial {
    before: &[],
    work: Work::Make(Version::New),
    stopped: &[Found::NoStore, Found::Store(NOTHING)],
    done: &[Found::Store(NOTHING)],
};

#[test]
fn a_new_store_or_none(rt: HostRuntime) {
    assert!(rt; is_whole(rt.alloc(), &MADE) == Some(true));
}

const FIRST: Listed<'static> = Listed {
    serial: b"\x05",
    reason: 1,
};

const SECOND: Listed<'static> = Listed {
    serial: b"\x06",
    reason: 4,
};

/// What holds the list of number 5.
const BEFORE: &[Work] = &[
    Work::Make(Version::New),
    Work::TakeOver(Then::Put(Statement::List(5, &[FIRST]))),
];

const FIFTH: Holding = Holding {
    rows: &[
        (b"\x05", (5, 1), None),
        (b"\x06", (5, 255), None),
        (b"\x07", (5, 255), None),
    ],
    counts: (1, 0),
};

const SIXTH: Holding = Holding {
    rows: &[
        (b"\x05", (6, 1), None),
        (b"\x06", (6, 4), None),
        (b"\x07", (6, 255), None),
    ],
    counts: (2, 0),
};

const LIST: Trial = Trial {
    before: BEFORE,
    work: Work::TakeOver(Then::Put(Statement::List(6, &[FIRST, SECOND]))),
    stopped: &[Found::Store(FIFTH), Found::Store(SIXTH)],
    done: &[Found::Store(SIXTH)],
};

#[test]
fn a_list_whole_or_not_at_all(rt: HostRuntime) {
    assert!(rt; is_whole(rt.alloc(), &LIST) == Some(true));
}

const GOOD: Single<'static> = Single {
    name_hash: NAME_HASH,
    serial: b"\x05",
    this_update: 1,
    produced_at: 2,
    from: 3,
    until: 4,
    status: Status::Good,
};

const SINGLES: &[Single<'static>] = &[
    GOOD,
    Single {
        serial: b"\x06",
        status: Status::Revoked(4),
        ..GOOD
    },
    Single {
        serial: b"\x07",
        status: Status::Unknown,
        ..GOOD
    },
];

const SAID: Holding = Holding {
    rows: &[
        (b"\x05", (5, 1), Some(Status::Good)),
        (b"\x06", (5, 255), Some(Status::Revoked(4))),
        (b"\x07", (5, 255), Some(Status::Unknown)),
    ],
    counts: (1, 3),
};

const RESPONSE: Trial = Trial {
    before: BEFORE,
    work: Work::TakeOver(Then::Put(Statement::Response(SINGLES))),
    stopped: &[Found::Store(FIFTH), Found::Store(SAID)],
    done: &[Found::Store(SAID)],
};

#[test]
fn a_response_whole_or_not_at_all(rt: HostRuntime) {
    assert!(rt; is_whole(rt.alloc(), &RESPONSE) == Some(true));
}

/// The issuer, and the hash of its name, stand there by their octets.
const ROWS: &str = "INSERT INTO meta (id, version) VALUES (1, 1);
INSERT INTO issuers (id, name, spki) VALUES (1, x'6e616d65', x'6b6579');
INSERT INTO crls (issuer, number, since, until) VALUES (1, x'0000000000000000000000000000000000000005', -10, 20);
INSERT INTO entries (issuer, serial, reason) VALUES (1, x'06', 4);
INSERT INTO entries (issuer, serial, reason) VALUES (1, x'05', 1);
INSERT INTO ocsp (issuer, name_hash, serial, this_update, produced_at, since, until, status, reason)
VALUES (1, x'6868686868686868686868686868686868686868', x'05', 1, 2, 3, 4, 1, 3);";

/// What these rows say.
const SAID_OF_ALL: &[Row] = &[
    (b"\x04", (5, 255), None),
    (b"\x05", (5, 1), Some(Status::Revoked(3))),
    (b"\x06", (5, 4), None),
];

const ALL: Holding = Holding {
    rows: SAID_OF_ALL,
    counts: (2, 1),
};

/// Version 1 or version 2, with all of it.
const MIGRATED: Trial = Trial {
    before: &[Work::Make(Version::Old(ROWS))],
    work: Work::TakeOver(Then::Nothing),
    stopped: &[Found::Migrated(ALL), Found::Store(ALL)],
    done: &[Found::Store(ALL)],
};

#[test]
fn all_rows_in_either_version(rt: HostRuntime) {
    assert!(rt; is_whole(rt.alloc(), &MIGRATED) == Some(true));
}

/// Look-ups, which leave all as it was.
const LOOKED_UP: Trial = Trial {
    before: &[
        Work::Make(Version::Old(ROWS)),
        Work::TakeOver(Then::Nothing),
    ],
    work: Work::TakeOver(Then::Look(SAID_OF_ALL)),
    stopped: &[Found::Store(ALL)],
    done: &[Found::Store(ALL)],
};

#[test]
fn look_ups_that_stop(rt: HostRuntime) {
    assert!(rt; is_whole(rt.alloc(), &LOOKED_UP) == Some(true));
}

/// A restart, which leaves all as it was.
const RESTARTED: Trial = Trial {
    before: BEFORE,
    work: Work::Reopen,
    stopped: &[Found::Store(FIFTH)],
    done: &[Found::Store(FIFTH)],
};

#[test]
fn restarts_that_stop(rt: HostRuntime) {
    assert!(rt; is_whole(rt.alloc(), &RESTARTED) == Some(true));
}
