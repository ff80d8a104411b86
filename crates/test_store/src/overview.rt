//! What the listing of a store says, beside what is wanted.

use crate::steps::is_same;
use sqlite::{Alter, Connection};
use statements_facts::Single;
use std::alloc::Global;
use store_listing::{HeldIssuer, HeldList, HeldSingle, Listing, read_listing};
use store_rows::ListKey;
use store_sql::StoreFault;

/// A list with the window that `putting` gives to each.
#[derive(Clone, Copy)]
pub struct List {
    pub key: ListKey,
    pub number: u8,
    pub entries: u64,
}

/// The listing; `None` inside a transaction.
pub fn overview<S: Alter>(
    alloc: Global,
    conn: &mut Connection<S>,
) -> Option<Result<Listing, StoreFault>> {
    if !conn.is_autocommit() {
        return None;
    }
    Some(read_listing(alloc, conn))
}

fn is_list(list: &HeldList, wanted: &List) -> bool {
    let octets = list.head.number.to_octets();
    list.issuer == wanted.key.issuer
        && list.scope == wanted.key.scope
        && octets[19] == wanted.number
        && octets[18] == 0
        && list.head.from == -10
        && list.head.until == 20
        && list.entries == wanted.entries
}

/// Each issuer has the name that `putting` gives to all.
pub fn are_issuers(issuers: &[HeldIssuer], wanted: &[(u32, &[u8])]) -> bool {
    issuers.len() == wanted.len()
        && issuers.iter().zip(wanted).all(|(issuer, wanted)| {
            issuer.id == wanted.0
                && issuer.name.as_slice() == b"name".as_slice()
                && issuer.key_info.as_slice() == wanted.1
        })
}

pub fn are_lists(lists: &[HeldList], wanted: &[List]) -> bool {
    lists.len() == wanted.len()
        && lists
            .iter()
            .zip(wanted)
            .all(|(list, wanted)| is_list(list, wanted))
}

pub fn are_singles(singles: &[HeldSingle], wanted: &[(u32, Single<'_>)]) -> bool {
    singles.len() == wanted.len()
        && singles.iter().zip(wanted).all(|(single, wanted)| {
            single.issuer == wanted.0
                && single.name_hash.as_slice() == wanted.1.name_hash.as_slice()
                && single.serial.as_slice() == wanted.1.serial
                && is_same(&single.said, &wanted.1)
        })
}
