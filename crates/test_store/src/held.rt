//! What is listed. The moments were counted by another program, and the SHA-256 of `abc` is that of FIPS 180-4.

use asn::Number20;
use statements_facts::{NameKey, OcspAnswer, Scope, Status};
use std::alloc::Global;
use store_listing::{HeldIssuer, HeldList, HeldSingle, Listing};
use store_rows::Head;

/// 1969-12-31T23:59:58Z.
const BEFORE: i64 = -2;

/// 2000-02-29T23:59:59Z.
const LEAP_DAY: i64 = 951_868_799;

/// 2026-12-01T00:00:00Z.
pub const FIRST: i64 = 1_796_083_200;

/// 2027-03-04T05:06:07Z.
pub const LAST: i64 = 1_804_136_767;

fn issuer(alloc: Global, id: u32, key_info: &[u8]) -> Option<HeldIssuer> {
    named_issuer(alloc, id, b"name", key_info)
}

fn named_issuer(alloc: Global, id: u32, name: &[u8], key_info: &[u8]) -> Option<HeldIssuer> {
    Some(HeldIssuer {
        id,
        name: NameKey::from_octets(Vec::from_slice(alloc, name).ok()?),
        key_info: Vec::from_slice(alloc, key_info).ok()?,
    })
}

fn list(issuer: u32, scope: Scope, low: u8, from: i64, until: i64, entries: u64) -> HeldList {
    let mut octets = [0; 20];
    octets[19] = low;
    HeldList {
        issuer,
        scope,
        head: Head {
            number: Number20::from_octets(octets),
            from,
            until,
        },
        entries,
    }
}

fn single(alloc: Global, issuer: u32, status: Status) -> Option<HeldSingle> {
    Some(HeldSingle {
        issuer,
        name_hash: Vec::from_slice(alloc, &[0xAB, 0x01]).ok()?,
        serial: Vec::from_slice(alloc, &[0x00, 0xFF]).ok()?,
        said: OcspAnswer {
            this_update: FIRST,
            produced_at: BEFORE,
            from: LEAP_DAY,
            until: LAST,
            status,
        },
    })
}

/// Two issuers, lists of each scope, of which one is of no issuer, and a response of each status.
pub fn listing(alloc: Global) -> Option<Listing> {
    let lists = [
        list(3, Scope::All, 5, FIRST, LAST, 0),
        list(1, Scope::User, 0xFF, LAST, LAST, 12),
        list(2, Scope::Ca, 0, BEFORE, LEAP_DAY, 1),
    ];
    let mut all = Listing {
        issuers: Vec::new(alloc),
        lists: Vec::from_slice(alloc, &lists).ok()?,
        singles: Vec::new(alloc),
    };
    all.issuers.push(issuer(alloc, 1, b"abc")?).ok()?;
    all.issuers.push(issuer(alloc, 3, b"")?).ok()?;
    all.singles.push(single(alloc, 1, Status::Good)?).ok()?;
    all.singles
        .push(single(alloc, 3, Status::Revoked(4))?)
        .ok()?;
    all.singles.push(single(alloc, 1, Status::Unknown)?).ok()?;
    Some(all)
}

/// A list from before the year 0, and until after 9999.
pub fn far(alloc: Global) -> Option<Listing> {
    let lists = [
        list(1, Scope::All, 5, i64::MIN, i64::MAX, u64::MAX),
        list(1, Scope::All, 5, -62_167_219_200, 253_402_300_799, 1),
        list(1, Scope::All, 5, -62_167_219_201, 253_402_300_800, 1),
    ];
    Some(Listing {
        issuers: Vec::new(alloc),
        lists: Vec::from_slice(alloc, &lists).ok()?,
        singles: Vec::new(alloc),
    })
}

/// Lists of one issuer, whose name is `CN=A`, and its lists at points with these general names.
pub fn at_points(alloc: Global, points: &[&[u8]]) -> Option<Listing> {
    let mut all = Listing {
        issuers: Vec::new(alloc),
        lists: Vec::new(alloc),
        singles: Vec::new(alloc),
    };
    for (place, point) in points.iter().enumerate() {
        let mut name = Vec::from_slice(
            alloc,
            b"\0\0\0\x01\0\0\0\x01\0\0\0\x03\x55\x04\x03\x01\0\0\0\x01a",
        )
        .ok()?;
        name.extend_from_slice(point).ok()?;
        let id = u32::try_from(place).ok()?.checked_add(1)?;
        all.issuers
            .push(named_issuer(alloc, id, name.as_slice(), b"abc")?)
            .ok()?;
        all.lists
            .push(list(id, Scope::All, 5, FIRST, LAST, 0))
            .ok()?;
    }
    Some(all)
}
