//! A party over a store of version 1, which is migrated.

use crate::answering::LEAF;
use crate::asking::{MIDDLE, verdict_on};
use relying::Node;
use relying::Verdict::{Revoked, Unknown};
use sqlite::{Alter, Connection, Files, Options};
use sqlite_disk::{Disk, Memory};
use std::alloc::Global;
use store::Store;
use store_migration::version_1_tables;
use vectors::ToyVerifier;

/// What `crl(R,5,[05 1])` leaves in a store of version 1. The issuer stands there by the key of the name R and the
/// subjectPublicKeyInfo of the key R.
const ROWS: &str = "INSERT INTO meta (id, version) VALUES (1, 1);
INSERT INTO issuers (id, name, spki) VALUES (1, x'000000010000000100000003550403010000000172', x'300a300406022a0303020052');
INSERT INTO crls (issuer, number, since, until) VALUES (1, x'0000000000000000000000000000000000000005', 1748736000, 1751328000);
INSERT INTO entries (issuer, serial, reason) VALUES (1, x'05', 1);";

/// Whether the tables were made, and these rows put into them.
fn is_filled<S: Alter>(conn: &mut Connection<S>) -> bool {
    conn.execute_batch(version_1_tables()).is_ok() && conn.execute_batch(ROWS).is_ok()
}

/// The files, which were filled so.
fn filled<D: Disk + Drop>(alloc: Global, files: Files<D>) -> Files<D> {
    if !files.may_be_used() {
        return files;
    }
    match Connection::open_files(alloc, files, Options::new(7)) {
        Ok(mut conn) => {
            let _is_filled = is_filled(&mut conn);
            conn.into_store().close()
        }
        Err((_error, left)) => left.into_files(),
    }
}

/// A store that was of version 1 and had these rows.
fn migrated(alloc: Global) -> Option<Store<Memory>> {
    let empty = Files {
        log: Memory::new(alloc),
        db: Memory::new(alloc),
    };
    let files = filled(alloc, empty);
    if !files.may_be_used() {
        return None;
    }
    match Connection::open_files(alloc, files, Options::new(7)) {
        Ok(conn) => Store::adopt(alloc, conn).ok(),
        Err(_) => None,
    }
}

/// Whether a user's certificate and an authority's are revoked, up to the end of the list and no longer.
fn are_revoked(alloc: Global) -> Option<bool> {
    let mut party = Node::new(ToyVerifier, migrated(alloc)?);
    let user = verdict_on(alloc, &mut party, LEAF, MIDDLE);
    let authority = verdict_on(alloc, &mut party, &["ca(R,R)", "ca(A,R)"], MIDDLE);
    let later = verdict_on(alloc, &mut party, LEAF, 1_751_328_001);
    Some(
        user == Some(Ok(Revoked(1, 1)))
            && authority == Some(Ok(Revoked(1, 1)))
            && later == Some(Ok(Unknown(1))),
    )
}

#[test]
fn lists_of_version_1_speak_of_all_certificates(rt: HostRuntime) {
    assert_eq!(rt; are_revoked(rt.alloc()), Some(true));
}
