//! What to know about a list that was delivered.

use crate::extent::Extent;
use crate::files::Source;
use jiff::Timestamp;
use statements_crl::Crl;
use statements_facts::Profile;
use std::io;
use std::io::Write;

// The moment as in 2026-11-27T07:30:00Z. A moment outside the years -9999 to 9999 is printed in seconds from 1970-01-01T00:00:00Z.
fn write_moment<W: Write>(seconds: i64, writer: &mut W) -> io::Result<()> {
    match Timestamp::from_second(seconds) {
        Ok(moment) => write!(writer, "{moment}"),
        Err(_) => write!(writer, "{seconds}"),
    }
}

// A line, if the list is not in force yet or no more.
fn hint_about_list<W: Write>(
    file: &str,
    list: &Crl<'_>,
    now: i64,
    writer: &mut W,
) -> io::Result<()> {
    if now < list.this_update {
        write!(writer, "hint: the list in {file} is not in force before ")?;
        write_moment(list.this_update, writer)?;
        writeln!(
            writer,
            ": until then it says nothing, and a list with a lower number is not taken any more"
        )
    } else if list.next_update < now {
        write!(writer, "hint: the list in {file} was in force until ")?;
        write_moment(list.next_update, writer)?;
        writeln!(
            writer,
            ": it says nothing of a later moment; deliver the issuer's next one"
        )
    } else {
        Ok(())
    }
}

/// Writes a line if the file holds a list that is not in force at the system's time: the store has the list with the greatest number,
/// whenever that is in force.
pub fn hint_after_delivery<W: Write>(
    rt: &HostRuntime,
    profile: Profile,
    file: &str,
    writer: &mut W,
) -> io::Result<()> {
    let Ok(octets) = rt.octets_of(file, Extent::Value) else {
        return Ok(());
    };
    let Ok(now) = Timestamp::now(rt) else {
        return Ok(());
    };
    match Crl::read_under(rt.alloc(), profile, octets.as_slice()) {
        Ok(list) => hint_about_list(file, &list, now.as_second(), writer),
        Err(_) => Ok(()),
    }
}
