//! Addresses, and a name that is looked at for no identity.

use asn::whole;
use names::General;
use names_identity::{Identity, IdentityRule, speaks_for};
use std::test::Fail;

/// 192.0.2.1, the same in the form of version 6 (RFC 4291, 2.5.5.2), and others.
const V4: &[u8] = &[192, 0, 2, 1];

const MAPPED: &[u8] = &[0, 0, 0, 0, 0, 0, 0, 0, 0, 0, 0xFF, 0xFF, 192, 0, 2, 1];

const V6: &[u8] = &[0x20, 1, 0x0D, 0xB8, 0, 0, 0, 0, 0, 0, 0, 0, 0, 0, 0, 1];

const V6_OTHER: &[u8] = &[0x20, 1, 0x0D, 0xB8, 0, 0, 0, 0, 0, 0, 0, 0, 0, 0, 0, 2];

const V4_AND_MASK: &[u8] = &[192, 0, 2, 1, 255, 255, 255, 255];

const V4_SHORT: &[u8] = &[192, 0, 2];

/// The address that is meant, the octets of the name, and whether it speaks for it.
const ADDRESSES: &[(&[u8], &[u8], bool)] = &[
    (V4, V4, true),
    (V6, V6, true),
    (MAPPED, MAPPED, true),
    (V4, MAPPED, false),
    (MAPPED, V4, false),
    (V4, V6, false),
    (V6, V6_OTHER, false),
    (V4, V4_AND_MASK, false),
    (V4, V4_SHORT, false),
    (V4, b"192.0.2.1", false),
];

fn speaks(address: &[u8], name: General<'_>) -> bool {
    match Identity::address(address) {
        Ok(identity) => speaks_for(&[name], &identity),
        Err(_) => false,
    }
}

#[test]
fn addresses_are_matched(rt: HostRuntime) -> Result<(), Fail> {
    for (address, name, wanted) in ADDRESSES.iter() {
        assert!(rt; speaks(address, General::Ip(name)) == *wanted, "{name:?}");
        assert!(rt; !speaks(address, General::Dns(name)), "{name:?}");
        assert!(rt; !speaks(address, General::Other(1, name)), "{name:?}");
    }
    Ok(())
}

fn is_no_address(octets: &[u8]) -> bool {
    match Identity::address(octets) {
        Ok(_) => false,
        Err(fault) => fault.rule == IdentityRule::Address && fault.at == 0,
    }
}

#[test]
fn other_octets_are_no_address(rt: HostRuntime) -> Result<(), Fail> {
    assert!(rt; is_no_address(&[]));
    assert!(rt; is_no_address(V4_SHORT));
    assert!(rt; is_no_address(V4_AND_MASK));
    assert!(rt; is_no_address(b"192.0.2.1"));
    Ok(())
}

/// A directoryName with the common name example.com.
const COMMON_NAME: &[u8] =
    b"\xA4\x18\x30\x16\x31\x14\x30\x12\x06\x03\x55\x04\x03\x0C\x0Bexample.com";

#[test]
fn common_names_are_not_looked_at(rt: HostRuntime) -> Result<(), Fail> {
    let value = whole(COMMON_NAME).map_err(|_| "a value")?;
    let name = General::read(value).map_err(|_| "a name")?;
    let identity = Identity::host(b"example.com").map_err(|_| "a host")?;
    assert!(rt; !speaks_for(&[name], &identity));
    assert!(rt; speaks_for(&[name, General::Dns(b"example.com")], &identity));
    Ok(())
}
