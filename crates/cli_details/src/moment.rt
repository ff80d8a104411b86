//! Moments as dates.

use jiff_core::civil::Date;
use std::io;
use std::io::Write;

const SECONDS_A_DAY: i64 = 86_400;

// HH:MM:SS, of a second of a day.
fn write_time_of_day(second: i64, text: &mut Vec<u8>) -> io::Result<()> {
    let hour = second / 3600;
    let minute = second / 60 % 60;
    let second = second % 60;
    write!(text, "{hour:02}:{minute:02}:{second:02}")
}

/// Writes the moment as in 2026-11-27T07:30:00Z, from its seconds from 1970-01-01T00:00:00Z; one outside the years -9999 to 9999 in
/// seconds.
pub(crate) fn write_moment(seconds: i64, text: &mut Vec<u8>) -> io::Result<()> {
    let Ok(date) = Date::from_unix_epoch_day(seconds.div_euclid(SECONDS_A_DAY)) else {
        return write!(text, "{seconds}");
    };
    let year = date.year;
    let month = date.month;
    let day = date.day;
    write!(text, "{year:04}-{month:02}-{day:02}T")?;
    write_time_of_day(seconds.rem_euclid(SECONDS_A_DAY), text)?;
    text.write_all(b"Z")
}

/// A line: the word and the moment.
pub(crate) fn write_moment_line(word: &str, seconds: i64, text: &mut Vec<u8>) -> io::Result<()> {
    write!(text, "{word} ")?;
    write_moment(seconds, text)?;
    text.write_all(b"\n")
}
