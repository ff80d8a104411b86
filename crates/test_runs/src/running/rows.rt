//! Rows try one command on many files: a line of `>`, what the file is, `:` and its octets, and then the answer.
//!
//!     > a version that is v1: version A003020100
//!     refused 23 Version at 6
//!
//! The octets are all of the file, or one component that the plain certificate has another of, where `-` stands for no octets. Of such
//! a component the answer has its own lines alone. An answer that begins with `refused ` is printed on standard error, behind the file's
//! name, with status 4; any other is printed on standard output, with status 0.

use super::shown::{PLAIN, PLAIN_LINES};
use crate::walking::ends_so;
use std::alloc::{AllocError, Global};
use std::fs;
use std::test::Fail;

/// The octets that the digits are.
pub(crate) fn octets_of(alloc: Global, digits: &str) -> Result<Vec<u8>, Fail> {
    let octets = hex::decode(alloc, digits).ok();
    Ok(octets.ok_or("hexadecimal")?)
}

/// Writes a file of the octets of the digits, and of others behind them.
pub(crate) fn put(rt: &HostRuntime, file: &str, digits: &str, behind: &str) -> Result<(), Fail> {
    let digits = format!(in rt.alloc(); "{digits}{behind}")?;
    let octets = octets_of(rt.alloc(), digits.as_str())?;
    Ok(fs::write(rt, file, octets.as_slice())?)
}

// The digits of a SEQUENCE of what the digits are, of at most 65,535 octets.
fn sequence(alloc: Global, digits: &str) -> Result<String, AllocError> {
    match digits.len() / 2 {
        count @ 0..128 => format!(in alloc; "30{count:02X}{digits}"),
        count @ 128..256 => format!(in alloc; "3081{count:02X}{digits}"),
        count => format!(in alloc; "3082{count:04X}{digits}"),
    }
}

// The digits of the plain certificate with another component.
fn plain_but(alloc: Global, name: &str, digits: &str) -> Result<String, Fail> {
    let mut all = String::new(alloc);
    let mut is_known = false;
    for line in PLAIN.lines() {
        let (component, plain) = line.split_once(' ').unwrap_or((line, ""));
        if component == "outer" {
            all = sequence(alloc, all.as_str())?;
        }
        let is_this = component == name;
        is_known = is_known || is_this;
        if is_this {
            all.push_str(digits)?;
        } else {
            all.push_str(plain)?;
        }
    }
    if !is_known {
        return Err(Fail::from("a component"));
    }
    Ok(sequence(alloc, all.as_str())?)
}

/// Writes the file of a row: of these digits, or of the plain certificate with this component.
pub(crate) fn put_row(
    rt: &HostRuntime,
    file: &str,
    component: &str,
    digits: &str,
) -> Result<(), Fail> {
    if component.is_empty() {
        return put(rt, file, digits, "");
    }
    let whole = plain_but(rt.alloc(), component, digits.trim_start_matches('-'))?;
    put(rt, file, whole.as_str(), "")
}

// The lines of a component of the plain certificate.
fn own_lines(component: &str) -> &'static str {
    match component {
        "version" => "version 3\n",
        "serial" => "serial 05\n",
        "issuer" => "issuer /2.5.4.3=A\n",
        "subject" => "subject /2.5.4.3=T\n",
        "validity" => "from 1735689600\nuntil 1767225600\n",
        "key" => "key 4b\n",
        _ => "",
    }
}

// What is printed of a row.
fn row_text(
    alloc: Global,
    file: &str,
    component: &str,
    answer: &str,
) -> Result<String, AllocError> {
    if answer.starts_with("refused ") {
        return format!(in alloc; "x509check: {file}: {answer}");
    }
    let own = own_lines(component);
    let (before, behind) = match component {
        "" => ("", ""),
        _ if own.is_empty() => (PLAIN_LINES, ""),
        _ => PLAIN_LINES.split_once(own).unwrap_or(("", "")),
    };
    format!(in alloc; "{before}{answer}{behind}")
}

/// Whether a run on the row's octets answers so, where the last word of the line is the file for them.
pub(crate) fn row_holds(rt: &HostRuntime, line: &str, row: &str) -> Result<bool, Fail> {
    let (head, answer) = row.split_once('\n').unwrap_or((row, ""));
    let (_, value) = head.rsplit_once(':').unwrap_or(("", head));
    let (component, digits) = value.trim().split_once(' ').unwrap_or(("", value.trim()));
    let (_, file) = line.rsplit_once(' ').unwrap_or(("", line));
    put_row(rt, file, component, digits)?;
    let text = row_text(rt.alloc(), file, component, answer)?;
    let status = if answer.starts_with("refused ") { 4 } else { 0 };
    Ok(ends_so(rt, line, status, text.as_str())?)
}

/// Runs the line on the octets of each row. One that is answered otherwise is named, with what it was to answer.
pub(crate) fn walk_rows(rt: &HostRuntime, line: &str, rows: &str) -> Result<(), Fail> {
    for row in rows.split('>').skip(1) {
        if !row_holds(rt, line, row)? {
            return Err(Fail::new(format_args!("{line}, not so: {row}")));
        }
    }
    Ok(())
}
