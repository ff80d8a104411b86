//! Moments, with the seconds that Python's calendar gives; that of the year 0 is 400 years before its like.

use cli_operands::moment_of;

const MOMENTS: &[(&str, i64)] = &[
    ("20250615000000Z", 1_749_945_600),
    ("19700101000000Z", 0),
    ("19691231235959Z", -1),
    ("20000229235959Z", 951_868_799),
    ("00000101000000Z", -62_167_219_200),
    ("00000229000000Z", -62_162_121_600),
    ("99991231235959Z", 253_402_300_799),
];

/// Texts that are no moment: of no day or hour, of another form, or of none.
const OTHERS: &[&str] = &[
    "",
    "Z",
    "20250230000000Z",
    "20250015000000Z",
    "20251315000000Z",
    "20250600000000Z",
    "19000229000000Z",
    "20250615240000Z",
    "20250615006000Z",
    "20250615000060Z",
    "20250615000000",
    "20250615000000z",
    "20250615000000+0000",
    "20250615000000.5Z",
    "202506150000Z",
    "250615000000Z",
    "020250615000000Z",
    " 20250615000000Z",
    "20250615000000Z ",
    "2025-06-15T00:00:00Z",
    "2025061500000\u{660}Z",
    "-2025061500000Z",
];

#[test]
fn reads_moments(rt: HostRuntime) {
    for (text, wanted) in MOMENTS.iter() {
        assert!(rt; moment_of(text) == Some(*wanted), "{text}");
    }
    for text in OTHERS.iter() {
        assert!(rt; moment_of(text) == None, "{text}");
    }
}
