//! Large statements, and many of them.

use crate::stores::{adopted, made, put, reason};
use asn::Number20;
use sqlite_disk::Memory;
use statements_facts::{
    Counts, CrlFacts, Facts, Issuer, Listed, NameKey, OcspFacts, RevokedSerials, Scope, Single,
    Singles, Status,
};
use std::alloc::Global;
use store::Store;

const LISTED: u32 = 200_000;

const LISTS: u32 = 2_000;

const SINGLES: u32 = 256;

/// The first serial number, as an INTEGER of four octets.
const FIRST: u32 = 0x4000_0000;

const NAME_HASH: [u8; 20] = [0x68; 20];

const KEY: &[u8] = b"key";

/// So many serial numbers, four octets each.
fn serials(alloc: Global, count: u32) -> Option<Vec<u8>> {
    let mut octets = Vec::new(alloc);
    for index in 0..count {
        octets
            .extend_from_slice(&(FIRST | index).to_be_bytes())
            .ok()?;
    }
    Some(octets)
}

fn issuer(alloc: Global, key_info: &[u8]) -> Option<Issuer<'_>> {
    let name = Vec::from_slice(alloc, b"name").ok()?;
    Some(Issuer {
        name: NameKey::from_octets(name),
        key_info,
    })
}

/// The reason for which lists here revoke a serial number.
fn given(serial: &[u8]) -> u8 {
    serial.last().copied().unwrap_or(0) % 5 + 1
}

/// A list that revokes all of these serial numbers.
fn list<'a>(alloc: Global, key_info: &'a [u8], serials: &'a [u8]) -> Option<Facts<'a>> {
    let mut listed = Vec::new(alloc);
    for serial in serials.chunks(4) {
        let reason = given(serial);
        listed.push(Listed { serial, reason }).ok()?;
    }
    Some(Facts::Crl(CrlFacts {
        issuer: issuer(alloc, key_info)?,
        others: Vec::new(alloc),
        scope: Scope::All,
        number: Number20::from_octets([1; 20]),
        from: 10,
        until: 20,
        revoked: RevokedSerials::of_entries(listed).ok()?,
    }))
}

/// A response that says of each of these that it is good.
fn response<'a>(alloc: Global, serials: &'a [u8]) -> Option<Facts<'a>> {
    let mut singles = Vec::new(alloc);
    for serial in serials.chunks(4) {
        let single = Single {
            name_hash: NAME_HASH,
            serial,
            this_update: 10,
            produced_at: 10,
            from: 10,
            until: 20,
            status: Status::Good,
        };
        singles.push(single).ok()?;
    }
    Some(Facts::Ocsp(OcspFacts {
        issuer: issuer(alloc, KEY)?,
        singles: Singles::from_list(singles)?,
    }))
}

/// So many facts, all of them stored.
fn stored(count: usize) -> Counts {
    Counts {
        stored: count,
        kept: 0,
        contradicted: 0,
    }
}

/// The store takes a list of the issuer that revokes all of these, and counts it.
fn put_list(
    alloc: Global,
    store: &mut Store<Memory>,
    key_info: &[u8],
    serials: &[u8],
) -> Option<Counts> {
    let list = list(alloc, key_info, serials)?;
    put(store, &list)
}

/// The reason for which the list of the issuer revokes a serial number; 255 where it does not list it.
fn told(alloc: Global, store: &mut Store<Memory>, key_info: &[u8], serial: u32) -> Option<u8> {
    let issuer = issuer(alloc, key_info)?;
    let reason = reason(store, &issuer, &serial.to_be_bytes())?;
    Some(reason.unwrap_or(255))
}

/// A store that took a list of these, opened again, and how the list was counted.
fn with_list(alloc: Global, serials: &[u8]) -> Option<(Counts, Store<Memory>)> {
    let mut store = made(alloc)?;
    let counts = put_list(alloc, &mut store, KEY, serials)?;
    Some((counts, adopted(alloc, store)?))
}

/// What is answered where a list of many entries is put, and of the last of them and the serial number behind it.
fn of_a_long_list(alloc: Global) -> Option<(Counts, u8, u8)> {
    let octets = serials(alloc, LISTED)?;
    let (counts, mut store) = with_list(alloc, &octets)?;
    let last = told(alloc, &mut store, KEY, FIRST | (LISTED - 1))?;
    let next = told(alloc, &mut store, KEY, FIRST | LISTED)?;
    Some((counts, last, next))
}

#[test]
fn a_list_of_200_000_entries(rt: HostRuntime) {
    let last = given(&(LISTED - 1).to_be_bytes());
    assert_eq!(rt; of_a_long_list(rt.alloc()), Some((stored(1), last, 255)));
}

/// Whether the store tells the reason of each of so many, and of no serial number behind them.
fn tells_all(alloc: Global, store: &mut Store<Memory>, count: u32) -> Option<bool> {
    for index in 0..count {
        let reason = told(alloc, store, KEY, FIRST | index)?;
        if reason != given(&index.to_be_bytes()) {
            return Some(false);
        }
    }
    Some(told(alloc, store, KEY, FIRST | count)? == 255)
}

/// The same of a store that took a list of so many entries.
fn tells_each(alloc: Global, count: u32) -> Option<bool> {
    let octets = serials(alloc, count)?;
    let mut store = made(alloc)?;
    put_list(alloc, &mut store, KEY, &octets)?;
    tells_all(alloc, &mut store, count)
}

/// Entries are written eight by a statement, and what is left one by one.
#[test]
fn lists_of_a_few_entries(rt: HostRuntime) {
    for &count in &[0, 1, 7, 8, 9, 15, 16, 17] {
        assert_eq!(rt; tells_each(rt.alloc(), count), Some(true));
    }
}

/// How a response about all of these is counted.
fn put_response(alloc: Global, store: &mut Store<Memory>, serials: &[u8]) -> Option<Counts> {
    let response = response(alloc, serials)?;
    put(store, &response)
}

/// The status of the last of the serial numbers, if one is held.
fn status_of_last(alloc: Global, store: &mut Store<Memory>) -> Option<Option<Status>> {
    let issuer = issuer(alloc, KEY)?;
    let last = FIRST | (SINGLES - 1);
    let held = store.ocsp(&issuer, &NAME_HASH, &last.to_be_bytes()).ok()?;
    Some(held.map(|held| held.status))
}

fn of_a_long_response(alloc: Global) -> Option<(Counts, Option<Status>)> {
    let octets = serials(alloc, SINGLES)?;
    let mut store = made(alloc)?;
    let counts = put_response(alloc, &mut store, &octets)?;
    Some((counts, status_of_last(alloc, &mut store)?))
}

#[test]
fn a_response_of_256_singles(rt: HostRuntime) {
    assert_eq!(rt;
        of_a_long_response(rt.alloc()),
        Some((stored(256), Some(Status::Good)))
    );
}

/// Whether each of many issuers' lists is stored.
fn puts_lists(alloc: Global, store: &mut Store<Memory>, serials: &[u8]) -> Option<()> {
    for index in 0..LISTS {
        let counts = put_list(alloc, store, &index.to_be_bytes(), serials)?;
        if counts != stored(1) {
            return None;
        }
    }
    Some(())
}

/// A store that took them, opened again.
fn with_lists(alloc: Global, serials: &[u8]) -> Option<Store<Memory>> {
    let mut store = made(alloc)?;
    puts_lists(alloc, &mut store, serials)?;
    adopted(alloc, store)
}

/// The reason that the last list gives, behind a restart.
fn of_many_lists(alloc: Global) -> Option<u8> {
    let octets = serials(alloc, 1)?;
    let mut store = with_lists(alloc, &octets)?;
    told(alloc, &mut store, &(LISTS - 1).to_be_bytes(), FIRST)
}

#[test]
fn lists_of_2_000_issuers(rt: HostRuntime) {
    assert_eq!(rt; of_many_lists(rt.alloc()), Some(1));
}
