//! UTCTime and GeneralizedTime, as certificates and revocation statements write them.

ghost use Rattle.std.specs.Prelude.{◌≡◌, ◌<◌, ◌+◌, ◌*◌, ◌/◌, ◌%◌, ℕ, ℤ, length, slice_index, pos, ◌+ℤ◌, ◌*ℤ◌, IfSome, IfNone};
ghost use Rattle.asn.specs.Time.{IsTwoDigits, IsTimeInYear, IsTime, IsBeforeYear10000, seconds_in, TimesAreUnique, TimeIsExact};
ghost use Rattle.jiff_core.specs.Calendar.{IsCivilDate, IsEpochDay, days_from_civil};

use crate::identifier::{GENERALIZED_TIME, UTC_TIME};
use jiff::civil::Date;

/// The number that the two octets from `at` on spell in decimal digits.
fn two_digit_number(text: &[u8], at: usize) -> Option<u8>
    requires { at + 1 < length text.now }
    ensures some { IfSome result (IsTwoDigits text.now at) }
    ensures none { IfNone result ((number : ℕ) → IsTwoDigits text.now at number → ⊥) }
{
    let high = text[at];
    let low = text[at + 1];
    if high.is_ascii_digit() && low.is_ascii_digit() {
        Some((high - b'0') * 10 + (low - b'0'))
    } else {
        None
    }
}

/// The day number of a date, counted from 1970-01-01, if the calendar has the date.
fn day_number(year: u16, month: u8, day: u8) -> Option<i32>
    requires year { year < 10000 }
    requires month { month < 100 }
    requires day { day < 100 }
    ensures some { IfSome result (λ days. days ≡ days_from_civil (pos year) month day) }
    ensures date { IfSome result (λ _. IsCivilDate (pos year) month day) }
    ensures bound { IfSome result IsEpochDay }
    ensures none { IfNone result (IsCivilDate (pos year) month day → ⊥) }
{
    match Date::new(year as i16, month as i8, day as i8) {
        Ok(date) => Some(date.to_plain().to_unix_epoch_day()),
        Err(_) => None,
    }
}

/// The seconds of whole days and of a time of day.
fn seconds_from(days: i32, second_of_day: u32) -> i64
    requires day { IsEpochDay days }
    requires clock { second_of_day < 86_400 }
    ensures value { result ≡ days *ℤ pos 86_400 +ℤ pos second_of_day }
    ensures early { IsBeforeYear10000 result }
{
    days as i64 * 86_400 + second_of_day as i64
}

/// The seconds of MMDDHHMMSSZ in a year.
fn seconds_in_year(year: u16, text: &[u8]) -> Option<i64>
    requires year { year < 10000 }
    requires length { length text.now ≡ 11 }
    ensures some { IfSome result (IsTimeInYear year text.now) }
    ensures early { IfSome result IsBeforeYear10000 }
    ensures none { IfNone result ((seconds : ℤ) → IsTimeInYear year text.now seconds → ⊥) }
{
    let month = two_digit_number(text, 0)?;
    let day = two_digit_number(text, 2)?;
    let hour = two_digit_number(text, 4)?;
    let minute = two_digit_number(text, 6)?;
    let second = two_digit_number(text, 8)?;
    if text[10] != b'Z' || hour > 23 || minute > 59 || second > 59 {
        return None;
    }
    let days = day_number(year, month, day)?;
    let second_of_day = hour as u32 * 3600 + minute as u32 * 60 + second as u32;
    Some(seconds_from(days, second_of_day))
}

/// The seconds of YYMMDDHHMMSSZ. YY from 50 on is 19YY, and else 20YY (RFC 5280 4.1.2.5.1).
fn seconds_of_utc_time(text: &[u8]) -> Option<i64>
    ensures some { IfSome result (IsTime 23 text.now) }
    ensures early { IfSome result IsBeforeYear10000 }
    ensures none { IfNone result ((seconds : ℤ) → IsTime 23 text.now seconds → ⊥) }
{
    if text.len() != 13 {
        return None;
    }
    let year_of_century = two_digit_number(text, 0)? as u16;
    let century = if year_of_century >= 50 { 1900 } else { 2000 };
    seconds_in_year(century + year_of_century, &text[2..])
}

/// The seconds of YYYYMMDDHHMMSSZ (RFC 5280 4.1.2.5.2).
fn seconds_of_generalized_time(text: &[u8]) -> Option<i64>
    ensures some { IfSome result (IsTime 24 text.now) }
    ensures early { IfSome result IsBeforeYear10000 }
    ensures none { IfNone result ((seconds : ℤ) → IsTime 24 text.now seconds → ⊥) }
{
    if text.len() != 15 {
        return None;
    }
    let century = two_digit_number(text, 0)? as u16;
    let year_of_century = two_digit_number(text, 2)? as u16;
    seconds_in_year(century * 100 + year_of_century, &text[4..])
}

/// The seconds from 1970-01-01T00:00:00Z of the contents of a UTCTime (`tag` 0x17; X.680, 47) or a GeneralizedTime (`tag` 0x18; X.680,
/// 46), in the forms of RFC 5280, 4.1.2.5; `None` for other octets.
///
/// Each year from 0000 to 9999 of the Gregorian calendar is served. There is no second 60.
pub fn seconds_of_time(tag: u8, octets: &[u8]) -> Option<i64>
    ensures some { IfSome result (IsTime tag octets.now) }
    ensures none { IfNone result ((seconds : ℤ) → IsTime tag octets.now seconds → ⊥) }
    ensures value { result ≡ seconds_in tag octets.now }
    ensures early { IfSome result IsBeforeYear10000 }
{
    match tag {
        UTC_TIME => seconds_of_utc_time(octets),
        GENERALIZED_TIME => seconds_of_generalized_time(octets),
        _ => None,
    }
}

/// The contents under a tag have at most one count of seconds, and `seconds_in` gives it.
pub fn time_laws()
    ensures unique { TimesAreUnique }
    ensures exact { TimeIsExact }
{}
