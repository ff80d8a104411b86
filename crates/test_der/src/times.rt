//! The two forms of time.

use asn::{GENERALIZED_TIME, UTC_TIME, seconds_of_time, time_laws};

/// The seconds are those that `date -u` and Python's `datetime` give.
const TIMES: &[(u8, &[u8], i64)] = &[
    (UTC_TIME, b"500101000000Z", -631_152_000),
    (UTC_TIME, b"501231235959Z", -599_616_001),
    (UTC_TIME, b"691231235959Z", -1),
    (UTC_TIME, b"700101000000Z", 0),
    (UTC_TIME, b"991231235959Z", 946_684_799),
    (UTC_TIME, b"000101000000Z", 946_684_800),
    (UTC_TIME, b"000229000000Z", 951_782_400),
    (UTC_TIME, b"240229123456Z", 1_709_210_096),
    (UTC_TIME, b"380119031408Z", 2_147_483_648),
    (UTC_TIME, b"490101000000Z", 2_493_072_000),
    (UTC_TIME, b"491231235959Z", 2_524_607_999),
    (GENERALIZED_TIME, b"00000101000000Z", -62_167_219_200),
    (GENERALIZED_TIME, b"00000229000000Z", -62_162_121_600),
    (GENERALIZED_TIME, b"00001231235959Z", -62_135_596_801),
    (GENERALIZED_TIME, b"00010101000000Z", -62_135_596_800),
    (GENERALIZED_TIME, b"15821010000000Z", -12_219_724_800),
    (GENERALIZED_TIME, b"19000228235959Z", -2_203_891_201),
    (GENERALIZED_TIME, b"19000301000000Z", -2_203_891_200),
    (GENERALIZED_TIME, b"19500101000000Z", -631_152_000),
    (GENERALIZED_TIME, b"19700101000000Z", 0),
    (GENERALIZED_TIME, b"20000229000000Z", 951_782_400),
    (GENERALIZED_TIME, b"20250615000000Z", 1_749_945_600),
    (GENERALIZED_TIME, b"20260430000001Z", 1_777_507_201),
    (GENERALIZED_TIME, b"21000301000000Z", 4_107_542_400),
    (GENERALIZED_TIME, b"24000229000000Z", 13_574_563_200),
    (GENERALIZED_TIME, b"99990101000000Z", 253_370_764_800),
    (GENERALIZED_TIME, b"99991231235959Z", 253_402_300_799),
];

#[test]
fn counts_seconds(rt: HostRuntime) {
    for (at, (tag, text, seconds)) in TIMES.iter().enumerate() {
        assert!(rt;
            seconds_of_time(*tag, text) == Some(*seconds),
            "at row {at}"
        );
    }
    time_laws();
}

const NO_TIMES: &[(u8, &[u8], &str)] = &[
    (UTC_TIME, b"230229000000Z", "29 February 2023"),
    (UTC_TIME, b"250615000060Z", "second 60"),
    (UTC_TIME, b"250615006000Z", "minute 60"),
    (UTC_TIME, b"250615240000Z", "hour 24"),
    (UTC_TIME, b"250015000000Z", "month 0"),
    (UTC_TIME, b"251315000000Z", "month 13"),
    (UTC_TIME, b"250600000000Z", "day 0"),
    (UTC_TIME, b"250132000000Z", "32 January"),
    (UTC_TIME, b"250431000000Z", "31 April"),
    (UTC_TIME, b"250631000000Z", "31 June"),
    (UTC_TIME, b"250931000000Z", "31 September"),
    (UTC_TIME, b"251131000000Z", "31 November"),
    (UTC_TIME, b"250230000000Z", "30 February"),
    (UTC_TIME, b"250615000000", "no zone"),
    (UTC_TIME, b"250615000000z", "small z"),
    (UTC_TIME, b"2506150000000", "a digit for the zone"),
    (UTC_TIME, b"250615000000+0000", "an offset"),
    (UTC_TIME, b"2506150000Z", "no seconds"),
    (UTC_TIME, b"250615000000.5Z", "a fraction"),
    (UTC_TIME, b"25061500000Z", "one digit less"),
    (UTC_TIME, b"2506150000000Z", "one digit more"),
    (UTC_TIME, b"20250615000000Z", "four digits of the year"),
    (UTC_TIME, b"", "nothing"),
    (UTC_TIME, b":50615000000Z", "3A for the first digit"),
    (UTC_TIME, b"2/0615000000Z", "2F for the second digit"),
    (UTC_TIME, b"25061500000:Z", "3A for the last digit"),
    (UTC_TIME, b"2506150000/0Z", "2F for a second"),
    (UTC_TIME, b"2506 5000000Z", "a space"),
    (GENERALIZED_TIME, b"19000229000000Z", "29 February 1900"),
    (GENERALIZED_TIME, b"21000229000000Z", "29 February 2100"),
    (GENERALIZED_TIME, b"00010229000000Z", "29 February 1"),
    (GENERALIZED_TIME, b"20250615235960Z", "second 60"),
    (GENERALIZED_TIME, b"20250615000000", "no zone"),
    (GENERALIZED_TIME, b"20250615000000.5Z", "a fraction"),
    (
        GENERALIZED_TIME,
        b"/0250615000000Z",
        "2F for the first digit",
    ),
    (GENERALIZED_TIME, b"20:50615000000Z", "3A in the year"),
    (GENERALIZED_TIME, b"250615000000Z", "two digits of the year"),
    (22, b"250615000000Z", "tag 22"),
    (25, b"20250615000000Z", "tag 25"),
];

#[test]
fn refuses_what_is_no_time(rt: HostRuntime) {
    for (tag, text, what) in NO_TIMES.iter() {
        assert!(rt; seconds_of_time(*tag, text).is_none(), "accepts {what}");
    }
}
