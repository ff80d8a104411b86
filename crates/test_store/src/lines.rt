//! The lines.

use crate::held::{FIRST, LAST, at_points, far, listing};
use cli_listing::listing_to;
use std::alloc::Global;
use std::test::Fail;
use store_listing::Listing;

/// The lines of a listing.
fn lines(alloc: Global, all: &Listing, at: Option<i64>) -> Option<Vec<u8>> {
    let mut text = Vec::new(alloc);
    listing_to(all, at, &mut text).ok()?;
    Some(text)
}

const WITHOUT_MOMENT: &str = "\
crl e3b0c44298fc1c149afbf4c8996fb92427ae41e4649b934ca495991b7852b855 all number 05 from 20261201000000Z until 20270304050607Z entries 0
crl ba7816bf8f01cfea414140de5dae2223b00361a396177a9cb410ff61f20015ad user number 00ff from 20270304050607Z until 20270304050607Z entries 12
crl - ca number 00 from 19691231235958Z until 20000229235959Z entries 1
ocsp ba7816bf8f01cfea414140de5dae2223b00361a396177a9cb410ff61f20015ad ab01 serial 00ff this 20261201000000Z produced 19691231235958Z from 20000229235959Z until 20270304050607Z good
ocsp e3b0c44298fc1c149afbf4c8996fb92427ae41e4649b934ca495991b7852b855 ab01 serial 00ff this 20261201000000Z produced 19691231235958Z from 20000229235959Z until 20270304050607Z revoked 4
ocsp ba7816bf8f01cfea414140de5dae2223b00361a396177a9cb410ff61f20015ad ab01 serial 00ff this 20261201000000Z produced 19691231235958Z from 20000229235959Z until 20270304050607Z unknown
";

const AT_FIRST: &str = "\
crl e3b0c44298fc1c149afbf4c8996fb92427ae41e4649b934ca495991b7852b855 all number 05 from 20261201000000Z until 20270304050607Z entries 0 current
crl ba7816bf8f01cfea414140de5dae2223b00361a396177a9cb410ff61f20015ad user number 00ff from 20270304050607Z until 20270304050607Z entries 12 not-yet
crl - ca number 00 from 19691231235958Z until 20000229235959Z entries 1 lapsed
ocsp ba7816bf8f01cfea414140de5dae2223b00361a396177a9cb410ff61f20015ad ab01 serial 00ff this 20261201000000Z produced 19691231235958Z from 20000229235959Z until 20270304050607Z good current
ocsp e3b0c44298fc1c149afbf4c8996fb92427ae41e4649b934ca495991b7852b855 ab01 serial 00ff this 20261201000000Z produced 19691231235958Z from 20000229235959Z until 20270304050607Z revoked 4 current
ocsp ba7816bf8f01cfea414140de5dae2223b00361a396177a9cb410ff61f20015ad ab01 serial 00ff this 20261201000000Z produced 19691231235958Z from 20000229235959Z until 20270304050607Z unknown current
";

const FAR: &str = "\
crl - all number 05 from -9223372036854775808 until 9223372036854775807 entries 18446744073709551615 current
crl - all number 05 from 00000101000000Z until 99991231235959Z entries 1 current
crl - all number 05 from -62167219201 until 253402300800 entries 1 current
";

/// The points of these lines: none; a URI, a DNS name and an address; a directory name; and octets that are no general name.
const POINTS: &[&[u8]] = &[
    b"",
    b"\x86\x08http://p",
    b"\x82\x01p",
    b"\x87\x04\xc0\x00\x02\x01",
    b"\xa4\x02\x30\x00",
    b"\x30",
];

const AT_POINTS: &str = "\
crl ba7816bf8f01cfea414140de5dae2223b00361a396177a9cb410ff61f20015ad all number 05 from 20261201000000Z until 20270304050607Z entries 0
crl ba7816bf8f01cfea414140de5dae2223b00361a396177a9cb410ff61f20015ad all point 6 687474703a2f2f70 number 05 from 20261201000000Z until 20270304050607Z entries 0
crl ba7816bf8f01cfea414140de5dae2223b00361a396177a9cb410ff61f20015ad all point dns p number 05 from 20261201000000Z until 20270304050607Z entries 0
crl ba7816bf8f01cfea414140de5dae2223b00361a396177a9cb410ff61f20015ad all point ip c0000201 number 05 from 20261201000000Z until 20270304050607Z entries 0
crl ba7816bf8f01cfea414140de5dae2223b00361a396177a9cb410ff61f20015ad all point a4023000 number 05 from 20261201000000Z until 20270304050607Z entries 0
crl ba7816bf8f01cfea414140de5dae2223b00361a396177a9cb410ff61f20015ad all point 30 number 05 from 20261201000000Z until 20270304050607Z entries 0
";

/// Whether the lines are these.
fn are_lines(alloc: Global, all: Option<Listing>, at: Option<i64>, wanted: &str) -> bool {
    let Some(all) = all else { return false };
    match lines(alloc, &all, at) {
        Some(text) => text.as_slice() == wanted.as_bytes(),
        None => false,
    }
}

#[test]
fn all_forms(rt: HostRuntime) -> Result<(), Fail> {
    let alloc = rt.alloc();
    assert!(rt; are_lines(alloc, listing(alloc), None, WITHOUT_MOMENT));
    assert!(rt; are_lines(alloc, listing(alloc), Some(FIRST), AT_FIRST));
    Ok(())
}

#[test]
fn lists_at_points(rt: HostRuntime) -> Result<(), Fail> {
    let alloc = rt.alloc();
    assert!(rt; are_lines(alloc, at_points(alloc, POINTS), None, AT_POINTS));
    Ok(())
}

#[test]
fn moments_that_are_not_spelled(rt: HostRuntime) -> Result<(), Fail> {
    let alloc = rt.alloc();
    assert!(rt; are_lines(alloc, far(alloc), Some(LAST), FAR));
    Ok(())
}
