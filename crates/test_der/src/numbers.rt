//! Numbers of up to 20 octets, and object identifiers.

use crate::holds;
use asn::{Number20, Oid};

#[test]
fn orders_numbers(rt: HostRuntime) {
    let below_half = {
        let mut octets = [0xFF; 20];
        octets[0] = 0x7F;
        octets
    };
    let half = {
        let mut octets = [0; 21];
        octets[1] = 0x80;
        octets
    };
    let largest = {
        let mut octets = [0xFF; 21];
        octets[0] = 0;
        octets
    };
    let ascending: [&[u8]; 14] = [
        &[0x00],
        &[0x01],
        &[0x05],
        &[0x7F],
        &[0x00, 0x80],
        &[0x00, 0xFF],
        &[0x01, 0x00],
        &[0x04, 0xFF],
        &[0x7F, 0xFF],
        &[0x00, 0x80, 0x00],
        &[0x01, 0x00, 0x00],
        &below_half,
        &half,
        &largest,
    ];
    for (i, one) in ascending.iter().enumerate() {
        let number = Number20::from_content(one);
        assert!(rt; number.is_some(), "refuses number {i}");
        for (j, other) in ascending.iter().enumerate() {
            let second = Number20::from_content(other);
            assert_eq!(rt; number.cmp(&second), i.cmp(&j), "orders {i} and {j}");
            assert_eq!(rt; number == second, i == j, "compares {i} and {j}");
        }
    }
}

#[test]
fn gives_the_octets_back(rt: HostRuntime) {
    let small: [(&[u8], u8, u8); 6] = [
        (&[0x00], 0, 0),
        (&[0x05], 0, 0x05),
        (&[0x7F], 0, 0x7F),
        (&[0x00, 0x80], 0, 0x80),
        (&[0x01, 0x00], 0x01, 0x00),
        (&[0x00, 0xFF, 0xFE], 0xFF, 0xFE),
    ];
    for (at, (content, high, low)) in small.iter().enumerate() {
        let mut octets = [0; 20];
        octets[18] = *high;
        octets[19] = *low;
        let number = Number20::from_content(content);
        assert_eq!(rt; number.map(|n| n.to_octets()), Some(octets), "at row {at}");
        assert_eq!(rt; number, Some(Number20::from_octets(octets)), "at row {at}");
    }
    let mut largest = [0xFF; 21];
    largest[0] = 0;
    let number = Number20::from_content(&largest);
    assert_eq!(rt; number.map(|n| n.to_octets()), Some([0xFF; 20]));
}

#[test]
fn refuses_what_is_no_such_number(rt: HostRuntime) {
    let two_to_160 = {
        let mut octets = [0; 21];
        octets[0] = 1;
        octets
    };
    let two_to_167 = {
        let mut octets = [0; 22];
        octets[1] = 0x80;
        octets
    };
    let refused: [(&[u8], &str); 13] = [
        (&[], "no octet"),
        (&[0x00, 0x00], "00 before 00"),
        (&[0x00, 0x05], "00 before 05"),
        (&[0x00, 0x7F, 0xFF], "00 before 7F"),
        (&[0x80], "-128"),
        (&[0xFF], "-1"),
        (&[0xFF, 0x7F], "-129"),
        (&[0xFF, 0x80], "FF before 80"),
        (&[0x80; 20], "20 octets of 80"),
        (&[0xFF; 21], "21 octets of FF"),
        (&[0x7F; 21], "21 octets of 7F"),
        (&two_to_160, "2^160"),
        (&two_to_167, "2^167"),
    ];
    for (content, what) in &refused {
        assert_eq!(rt; Number20::from_content(content), None, "accepts {what}");
    }
}

#[test]
fn identifiers_are_compared(rt: HostRuntime) {
    let (common_name, country) = ([0x55, 0x04, 0x03], [0x55, 0x04, 0x06]);
    let oid = Oid::new(&common_name);
    holds(
        &rt,
        oid.contents() == common_name.as_slice(),
        "the contents",
    );
    holds(&rt, oid.is(&[0x55, 0x04, 0x03]), "the same");
    holds(&rt, !oid.is(&[0x55, 0x04]), "what it begins with");
    holds(&rt, oid == Oid::new(&[0x55, 0x04, 0x03]), "equal");
    holds(&rt, oid != Oid::new(&country), "another");
    holds(&rt, oid < Oid::new(&country), "a greater one");
}
