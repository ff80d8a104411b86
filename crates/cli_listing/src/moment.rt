//! Moments as text.

ghost use Rattle.std.specs.Prelude.{◌≡◌, ◌<◌, ◌+◌, ◌/◌, ◌%◌, ◌++◌};
ghost use Rattle.cli_printing.specs.Written.{Writes};
ghost use Rattle.cli_listing.specs.CivilView.{seen_civil};
ghost use Rattle.cli_listing.specs.MomentText.{generalized, moment_text};

use crate::calendar::civil_after;
use crate::civil::Civil;
use std::io;
use std::io::Write;

/// 0000-01-01T00:00:00Z.
pub(crate) const FIRST: i64 = -62_167_219_200;

/// 9999-12-31T23:59:59Z.
pub(crate) const LAST: i64 = 253_402_300_799;

/// The two digits of a number below 100.
fn digits(number: u8) -> (u8, u8)
    requires { number < 100 }
    ensures tens { result.0 ≡ 48 + number / 10 }
    ensures ones { result.1 ≡ 48 + number % 10 }
{
    (b'0' + number / 10, b'0' + number % 10)
}

/// YYYYMMDDHHMMSSZ.
fn spelled(civil: &Civil) -> [u8; 15]
    ensures { result ≡ generalized (seen_civil civil.now) }
{
    let century = digits((civil.year / 100) as u8);
    let year = digits((civil.year % 100) as u8);
    let month = digits(civil.month);
    let day = digits(civil.day);
    let hour = digits(civil.hour);
    let minute = digits(civil.minute);
    let second = digits(civil.second);
    [
        century.0, century.1, year.0, year.1, month.0, month.1, day.0, day.1, hour.0, hour.1,
        minute.0, minute.1, second.0, second.1, b'Z',
    ]
}

/// Writes a moment, in seconds from 1970-01-01T00:00:00Z, as YYYYMMDDHHMMSSZ; one that is before the year 0 or after 9999 as its
/// seconds.
#[tactic(auto, unfolding(crate::specs::MomentText::moment_text))]
fn write_moment<W: Write>(moment: i64, writer: &mut W) -> io::Result<()>
    ensures { Writes W.contents writer.old writer.new result (moment_text moment) }
{
    if FIRST <= moment && moment <= LAST {
        writer.write_all(&spelled(&civil_after((moment - FIRST) as u64)))
    } else {
        write!(writer, "{moment}")
    }
}

/// Writes a moment behind a word.
pub(crate) fn write_moment_behind<W: Write>(
    word: &str,
    moment: i64,
    writer: &mut W,
) -> io::Result<()>
    ensures { Writes W.contents writer.old writer.new result (word.now ++ moment_text moment) }
{
    writer.write_all(word.as_bytes())?;
    write_moment(moment, writer)
}
