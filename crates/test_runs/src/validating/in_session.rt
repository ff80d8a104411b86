//! Sessions: each request is answered as the program answers its command, run by run, over a store of its own.

use super::files::{write_files, write_verdicts};
use super::quick_start::{FILES, PRINTS};
use crate::walking::words_of;
use cli::execute;
use std::alloc::{AllocError, Global};
use std::test::Fail;

// Statements as they come, with checks between them, and what is refused. The first makes the store.
const MIXED: &str = "
deliver root.der root.crl
check 20261201000000Z root.der middle.der leaf.der
deliver middle.der middle.crl
check 20261201000000Z root.der middle.der leaf.der
check 20261201000000Z purpose=1.3.6.1.5.5.7.3.3 root.der middle.der leaf.der
check 20261201000000Z purpose=1.3.6.1.5.5.7.3.1 root.der middle.der leaf.der
deliver middle.der middle.crl
deliver root.der middle.crl
deliver root.der leaf.der
deliver nothing.der middle.crl
check 20261301000000Z root.der middle.der leaf.der
check 20261201000000Z root.der root.crl
find 20261201000000Z root.der middle.der leaf.der
find 20261201000000Z name=www.example root.der middle.der leaf.der
find 20261201000000Z name=mail.example root.der middle.der leaf.der
find 20261201000000Z purpose=1.3.6.1.5.5.7.3.3 root.der middle.der leaf.der
find 20261201000000Z root.der leaf.der
find 20261201000000Z name=a@ root.der leaf.der
find 20261201000000Z root.der nothing.der leaf.der
prints cert root.der middle.der
prints search root.der middle.der leaf.der
prints crl middle.der middle2.crl
prints ocsp middle.der middle2.crl
deliver middle.der middle2.crl
check 20261201000000Z root.der middle.der leaf.der
deliver middle.der middle.crl
check 20261201000000Z root.der middle.der leaf.der
find 20261201000000Z root.der middle.der leaf.der
";

const MONTHS: &[&str] = &[
    "01", "02", "03", "04", "05", "06", "07", "08", "09", "10", "11", "12",
];

// What the checks go by.
const DELIVERED: &str = "deliver root.der root.crl\ndeliver middle.der middle2.crl\n";

const PATHS: &[&str] = &[
    "root.der middle.der leaf.der",
    "root.der middle.der",
    "root.der leaf.der",
    "middle.der leaf.der",
    "purpose=1.3.6.1.5.5.7.3.1 root.der middle.der leaf.der",
    "purpose=1.3.6.1.5.5.7.3.3 root.der middle.der leaf.der",
];

// The options that stand in front of the operands of a search, in front of those of a command.
fn find_of(alloc: Global, begin: &str, words: &str) -> Result<String, Fail> {
    if let Some((option, behind)) = words.split_once('=') {
        let (value, others) = behind.split_once(' ').ok_or("a value")?;
        let longer = format!(in alloc; "{begin} --{option} {value}")?;
        return search_of(alloc, longer.as_str(), others);
    }
    search_of(alloc, begin, words)
}

// The operands of a search, as those of a command.
fn search_of(alloc: Global, begin: &str, words: &str) -> Result<String, Fail> {
    let (anchors, behind) = words.split_once(' ').ok_or("anchors")?;
    Ok(match behind.split_once(' ') {
        Some((among, file)) => {
            format!(in alloc; "{begin} --anchor {anchors} --among {among} {file}")?
        }
        None => format!(in alloc; "{begin} --anchor {anchors} {behind}")?,
    })
}

// The command that asks the same over this store.
fn command_of(alloc: Global, store: &str, request: &str) -> Result<String, Fail> {
    let (name, words) = request.split_once(' ').ok_or("a name")?;
    let (first, others) = words.split_once(' ').ok_or("a word")?;
    let over = format!(in alloc; "--store {store} --verdicts good")?;
    Ok(match name {
        "deliver" => format!(in alloc; "deliver {over} --issuer {first} {others}")?,
        "prints" => {
            let (issuer, behind) = others.split_once(' ').ok_or("a file")?;
            match behind.split_once(' ') {
                Some((among, file)) => {
                    format!(in alloc; "prints --issuer {issuer} --among {among} {file}")?
                }
                None => format!(in alloc; "prints --issuer {issuer} --as {first} {behind}")?,
            }
        }
        "find" => {
            let begin = format!(in alloc; "find {over} --at {first}")?;
            find_of(alloc, begin.as_str(), others)?
        }
        _ => match others.strip_prefix("purpose=") {
            Some(asked) => {
                let (purpose, path) = asked.split_once(' ').ok_or("a path")?;
                format!(in alloc; "check {over} --at {first} --purpose {purpose} --anchor {path}")?
            }
            None => format!(in alloc; "check {over} --at {first} --anchor {others}")?,
        },
    })
}

// How the run of the command is answered in a session: its status, and what it prints without the program's name; of fingerprints and of a
// search the number of lines first.
fn answer_of(rt: &HostRuntime, command: &str) -> Result<String, Fail> {
    let words = words_of(rt.alloc(), command)?;
    let (mut out, mut err) = (Vec::new(rt.alloc()), Vec::new(rt.alloc()));
    let mut input: &[u8] = &[];
    let status = execute(
        rt,
        rt.alloc(),
        words.as_slice(),
        &mut input,
        &mut out,
        &mut err,
    );
    let printed = str::from_utf8(out.as_slice()).map_err(|_| "a text")?;
    let failed = str::from_utf8(err.as_slice()).map_err(|_| "a text")?;
    let alloc = rt.alloc();
    if let Some(line) = failed.strip_prefix("x509check: ") {
        return Ok(format!(in alloc; "{status} {line}")?);
    }
    if command.starts_with("prints") || command.starts_with("find") {
        let count = printed.lines().count();
        return Ok(format!(in alloc; "{status} {count}\n{printed}")?);
    }
    Ok(format!(in alloc; "{status} {printed}")?)
}

// The answers of one session to these requests, over this store.
fn session_over(rt: &HostRuntime, store: &str, requests: &str) -> Result<Vec<u8>, Fail> {
    let line = format!(in rt.alloc(); "session --store {store} --verdicts good")?;
    let words = words_of(rt.alloc(), line.as_str())?;
    let (mut out, mut err) = (Vec::new(rt.alloc()), Vec::new(rt.alloc()));
    let mut input = requests.as_bytes();
    let status = execute(
        rt,
        rt.alloc(),
        words.as_slice(),
        &mut input,
        &mut out,
        &mut err,
    );
    if status != 0 || !err.is_empty() {
        return Err("a session that failed".into());
    }
    Ok(out)
}

// Whether a session answers the requests as the runs of their commands do.
fn are_answered_alike(
    rt: &HostRuntime,
    requests: &str,
    session: &str,
    alone: &str,
) -> Result<bool, Fail> {
    let mut wanted = String::new(rt.alloc());
    for request in requests.lines().filter(|line| !line.is_empty()) {
        let command = command_of(rt.alloc(), alone, request)?;
        wanted.push_str(answer_of(rt, command.as_str())?.as_str())?;
    }
    let said = session_over(rt, session, requests)?;
    Ok(said.as_slice() == wanted.as_bytes())
}

// A check of each path in each month of a year.
fn checks_in(alloc: Global, year: &str) -> Result<String, AllocError> {
    let mut requests = String::new(alloc);
    requests.push_str(DELIVERED)?;
    for month in MONTHS.iter() {
        for path in PATHS.iter() {
            let line = format!(in alloc; "check {year}{month}01000000Z {path}\n")?;
            requests.push_str(line.as_str())?;
        }
    }
    Ok(requests)
}

// Whether they are answered so, over stores of their own.
fn are_checks_answered_alike(rt: &HostRuntime, year: &str) -> Result<bool, Fail> {
    write_files(rt, FILES)?;
    write_verdicts(rt, "good", PRINTS)?;
    let requests = checks_in(rt.alloc(), year)?;
    let session = format!(in rt.alloc(); "in_session_{year}")?;
    let alone = format!(in rt.alloc(); "alone_{year}")?;
    are_answered_alike(rt, requests.as_str(), session.as_str(), alone.as_str())
}

#[test]
fn requests_are_answered_as_commands(rt: HostRuntime) -> Result<(), Fail> {
    write_files(&rt, FILES)?;
    write_verdicts(&rt, "good", PRINTS)?;
    assert!(rt;
        are_answered_alike(&rt, MIXED, "in_session", "alone")?,
        "mixed requests"
    );
    Ok(())
}

#[test]
fn checks_in_2026_are_answered_as_commands(rt: HostRuntime) -> Result<(), Fail> {
    assert!(rt; are_checks_answered_alike(&rt, "2026")?, "checks");
    Ok(())
}

#[test]
fn checks_in_2027_are_answered_as_commands(rt: HostRuntime) -> Result<(), Fail> {
    assert!(rt; are_checks_answered_alike(&rt, "2027")?, "checks");
    Ok(())
}

#[test]
fn checks_in_2031_are_answered_as_commands(rt: HostRuntime) -> Result<(), Fail> {
    assert!(rt; are_checks_answered_alike(&rt, "2031")?, "checks");
    Ok(())
}
