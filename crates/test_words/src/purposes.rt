//! Purposes, with the contents octets that an independent script gives.

use cli_operands::purpose_of;
use std::test::Fail;

const PURPOSES: &[(&str, &str)] = &[
    ("1.3.6.1.5.5.7.3.1", "2b06010505070301"),
    ("2.5.29.37.0", "551d2500"),
    ("0.0", "00"),
    ("0.39", "27"),
    ("1.0", "28"),
    ("1.39", "4f"),
    ("2.0", "50"),
    ("2.47", "7f"),
    ("2.48", "8100"),
    ("2.999.3", "883703"),
    ("1.2.127.128.16383.16384", "2a7f8100ff7f818000"),
    ("1.2.9223372036854775807", "2affffffffffffffff7f"),
    ("2.9223372036854775727", "ffffffffffffffff7f"),
];

/// Texts that are none that is printed: too few numbers or too large ones, other beginnings, empty numbers, signs, zeros in front.
const OTHERS: &[&str] = &[
    "",
    ".",
    "1",
    "1.",
    ".1",
    "1..2",
    "1.2.",
    "1.40",
    "0.40",
    "3.1",
    "01.2",
    "1.02",
    "1.2.00",
    "1.2.+3",
    "1.2.-3",
    "+1.2",
    "1.2 ",
    " 1.2",
    "1. 2",
    "1,2",
    "1.2.x",
    "1.2.0x1",
    "1.2.\u{663}",
    "#2a03",
    "1.2.9223372036854775808",
    "1.2.18446744073709551616",
    "1.2.99999999999999999999999999",
    "2.9223372036854775728",
    "2.18446744073709551536",
];

#[test]
fn reads_purposes(rt: HostRuntime) -> Result<(), Fail> {
    let alloc = rt.alloc();
    for (text, wanted) in PURPOSES.iter() {
        let contents = purpose_of(alloc, text)?.ok_or("a purpose")?;
        let printed = hex::encode(alloc, contents.as_slice())?;
        assert!(rt; printed.as_str() == *wanted, "{text}");
    }
    for text in OTHERS.iter() {
        assert!(rt; purpose_of(alloc, text)?.is_none(), "{text}");
    }
    Ok(())
}
