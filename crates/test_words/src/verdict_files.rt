//! Files of verdicts.

use cli_operands::{FingerprintsFault, fingerprints_of};
use std::alloc::Global;
use std::process::Abort;
use std::test::Fail;

const ONE: &str = "000102030405060708090a0b0c0d0e0f101112131415161718191a1b1c1d1e1f";

/// The lines of a file, and how many fingerprints it names. Each fingerprint is the octets from 0 to 31.
const FILES: &[(&str, &[&str], usize)] = &[
    ("nothing", &[""], 0),
    ("empty lines", &["", "", ""], 0),
    ("a line", &[ONE], 1),
    ("a line with its end", &[ONE, ""], 1),
    ("two lines and empty ones", &["", ONE, "", ONE, ""], 2),
    (
        "upper case",
        &["000102030405060708090A0B0C0D0E0F101112131415161718191A1B1C1D1E1F"],
        1,
    ),
    (
        "a space",
        &["000102030405060708090a0b0c0d0e0f101112131415161718191a1b1c1d1e1f "],
        1,
    ),
    (
        "words",
        &["000102030405060708090a0b0c0d0e0f101112131415161718191a1b1c1d1e1f certificate issuer"],
        1,
    ),
    (
        "any words",
        &["000102030405060708090a0b0c0d0e0f101112131415161718191a1b1c1d1e1f  \u{e9}\t#"],
        1,
    ),
];

/// The lines of a file, and the number of the first that is bad.
const BAD: &[(&str, &[&str], usize)] = &[
    ("a word", &["certificate"], 1),
    ("a space alone", &["", " "], 2),
    ("a return alone", &[ONE, "\r", ""], 2),
    (
        "a digit too few",
        &[
            ONE,
            "",
            "000102030405060708090a0b0c0d0e0f101112131415161718191a1b1c1d1e1",
        ],
        3,
    ),
    (
        "a digit too many",
        &["000102030405060708090a0b0c0d0e0f101112131415161718191a1b1c1d1e1f0"],
        1,
    ),
    (
        "another letter",
        &["g00102030405060708090a0b0c0d0e0f101112131415161718191a1b1c1d1e1f"],
        1,
    ),
    (
        "a space in front",
        &[" 000102030405060708090a0b0c0d0e0f101112131415161718191a1b1c1d1e1f"],
        1,
    ),
    (
        "a tab behind",
        &["000102030405060708090a0b0c0d0e0f101112131415161718191a1b1c1d1e1f\tcrl"],
        1,
    ),
    (
        "a return behind",
        &["000102030405060708090a0b0c0d0e0f101112131415161718191a1b1c1d1e1f\r"],
        1,
    ),
    (
        "a return behind words",
        &[
            "",
            "",
            "000102030405060708090a0b0c0d0e0f101112131415161718191a1b1c1d1e1f crl issuer\r",
            "x",
        ],
        3,
    ),
    ("letters of two octets", &["", ONE, "\u{e9}"], 3),
];

/// The lines, with a line feed between each two.
fn joined(alloc: Global, lines: &[&str]) -> Result<String, Fail> {
    let mut text = String::new(alloc);
    for (index, line) in lines.iter().enumerate() {
        if index > 0 {
            text.push('\n')?;
        }
        text.push_str(line)?;
    }
    Ok(text)
}

/// Whether so many fingerprints are named, each of which is the octets from 0 to 31.
fn are_named(prints: &[[u8; 32]], count: usize) -> bool {
    prints.len() == count
        && prints.iter().all(|print| print.first() == Some(&0)
            && print.last() == Some(&31)
            && print[17] == 17)
}

#[test]
fn reads_files_of_verdicts(rt: HostRuntime) -> Result<(), Fail> {
    let alloc = rt.alloc();
    for (name, lines, count) in FILES.iter() {
        let text = joined(alloc, lines)?;
        let prints = fingerprints_of(alloc, text.as_bytes())
            .ok()
            .ok_or("a list")?;
        assert!(rt; are_named(prints.as_slice(), *count), "{name}");
    }
    Ok(())
}

fn is_refused(rt: &impl Abort, alloc: Global, name: &str, text: &str, number: usize) {
    let fault = fingerprints_of(alloc, text.as_bytes()).err();
    assert!(rt; fault == Some(FingerprintsFault::Line(number)), "{name}");
}

#[test]
fn refuses_bad_lines(rt: HostRuntime) -> Result<(), Fail> {
    let alloc = rt.alloc();
    for (name, lines, number) in BAD.iter() {
        let text = joined(alloc, lines)?;
        is_refused(&rt, alloc, name, text.as_str(), *number);
    }
    Ok(())
}

#[test]
fn faults_are_printed_and_compared(rt: HostRuntime) -> Result<(), Fail> {
    let (third, memory) = (FingerprintsFault::Line(3), FingerprintsFault::Memory);
    let printed = format!(in rt.alloc(); "{third}; {memory}")?;
    assert!(rt; printed.as_str() == "line 3 is bad; no memory");
    assert!(rt; third != FingerprintsFault::Line(4));
    assert!(rt; third != memory);
    Ok(())
}
