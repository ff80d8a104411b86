//! Fingerprints, and a verifier that believes a list of them.

use path_verifiers::{ListVerifier, Verifier, fingerprint};
use std::alloc::{AllocError, Global};
use std::test::Fail;

/// A text whose length has two octets.
const LONG: &[u8] = &[b'm'; 700];

/// Four texts, and the digest that Python's hashlib gives of them, each behind its length.
const ROWS: &[([&[u8]; 4], &[u8])] = &[
    (
        [b"", b"", b"", b""],
        b"\x66\x68\x7A\xAD\xF8\x62\xBD\x77\x6C\x8F\xC1\x8B\x8E\x9F\x8E\x20\x08\x97\x14\x85\x6E\xE2\x33\xB3\x90\x2A\x59\x1D\x0D\x5F\x29\x25",
    ),
    (
        [b"a", b"", b"", b""],
        b"\x05\xD7\x3A\xF0\xC8\xDC\xAC\xCD\x6C\x7D\xD1\x07\x51\xA8\x59\x05\x33\x03\xE0\x85\x13\x44\xF1\x00\xF6\xF0\x9D\xA2\xE1\x31\xE0\x92",
    ),
    (
        [b"", b"a", b"", b""],
        b"\x25\xE3\x7B\x0B\x76\xEB\xDC\xA1\x5B\x88\x83\x30\x7A\x96\xBB\xA6\x9B\x1A\xFB\x43\xAE\x0C\xC2\x12\xFA\x7D\xB3\x0B\xE5\xF9\xD8\x9E",
    ),
    (
        [b"abc", b"\x30\x00", LONG, b"\xFF"],
        b"\xF7\x5D\xD4\x8C\x2A\xBC\x96\xC5\x3D\xA3\xBD\xEF\x13\x4B\x3A\x9C\xD9\x54\x13\x2F\xEA\xE1\xE6\x8E\x5F\x60\xDA\x5B\x41\xBC\x80\xCE",
    ),
];

#[test]
fn fingerprints_texts(rt: HostRuntime) {
    for ([algorithm, key_info, message, signature], wanted) in ROWS.iter() {
        let print = fingerprint(algorithm, key_info, message, signature);
        assert!(rt; print.as_slice() == *wanted);
    }
}

/// As many different fingerprints, in no order.
fn prints_of(alloc: Global, count: u32) -> Result<Vec<[u8; 32]>, AllocError> {
    let mut prints = Vec::new(alloc);
    for number in 0..count {
        prints.push(print_of(number))?;
    }
    Ok(prints)
}

/// Different for different numbers, since the factor is odd.
fn print_of(number: u32) -> [u8; 32] {
    let [first, second, third, fourth] = number.wrapping_mul(0x9E37_79B1).to_be_bytes();
    let mut print = [0x5A; 32];
    print[0] = first;
    print[1] = second;
    print[2] = third;
    print[31] = fourth;
    print
}

#[test]
fn believes_what_is_listed(rt: HostRuntime) -> Result<(), Fail> {
    let alloc = rt.alloc();
    let print = fingerprint(b"algorithm", b"key", b"message", b"signature");
    let verifier = ListVerifier::new(vec![in alloc; [0xFF; 32], print, [0; 32], print]?);
    assert!(rt; verifier.lists(&print) && verifier.lists(&[0; 32]) && !verifier.lists(&[1; 32]));
    assert!(rt; verifier.judge(b"algorithm", b"key", b"message", b"signature"));
    assert!(rt; !verifier.judge(b"algorithm", b"key", b"message", b"signaturE"));
    let none = ListVerifier::new(Vec::new(alloc));
    assert!(rt; !none.judge(b"algorithm", b"key", b"message", b"signature"));
    Ok(())
}

/// A hundred thousand fingerprints: each is found, and as many others are not.
#[test]
fn finds_in_a_long_list(rt: HostRuntime) -> Result<(), Fail> {
    let verifier = ListVerifier::new(prints_of(rt.alloc(), 100_000)?);
    for number in 0..100_000 {
        assert!(rt; verifier.lists(&print_of(number)), "{number}");
        assert!(rt; !verifier.lists(&print_of(number + 100_000)), "{number}");
    }
    Ok(())
}
