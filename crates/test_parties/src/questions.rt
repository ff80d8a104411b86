//! Questions that are read in a profile.

use cert::Certificate;
use path::{Options, Query, QueryFault};
use statements_facts::Profile;
use std::alloc::{AllocError, AllocFailed, Global};
use std::test::Fail;
use vectors::certificate_at;

/// Certificates from the anchor down, and the answer. A certificate is written in the notation of `vectors`, or as `x`, which stands for
/// octets that are not one; its points follow, each with its names. A point without names is malformed. The answer lists the names that each
/// certificate has, those of points with reasons or a cRLIssuer in parentheses behind the others, or gives the number of the first certificate
/// that is refused, with the number of its fault.
const WIDE: &[&str] = &[
    "ca(R,R) | ee(T,R) => [][]",
    "ca(R,R) | ee(T,R) @a => [][ a]",
    "ca(R,R) | ee(T,R) @a+b @c => [][ a b c]",
    "ca(R,R) | ca(A,R) @a | ee(T,A) @b => [][ a][ b]",
    "ca(R,R) | ca(A,R) | ee(T,A) @b @b => [][][ b b]",
    // points with reasons, and with a cRLIssuer
    "ca(R,R) | ee(T,R) @a+{keyCompromise} => [][ (a)]",
    "ca(R,R) | ee(T,R) @a+{keyCompromise} @b @c+d+{cRLIssuer} => [][ b (a) (c) (d)]",
    "ca(R,R) | ca(A,R) @a+{cRLIssuer}+{keyCompromise} | ee(T,A) @a => [][ (a)][ a]",
    // the points of the anchor are not looked at
    "ca(R,R) @a | ca(A,R) @a | ee(T,A) => [][ a][]",
    "ca(R,R) @ | ee(T,R) @a => [][ a]",
    "ca(R,R) @ => []",
    // octets that are not a certificate
    "ca(R,R) | x => 1 refused 21",
    "x | ee(T,R) @a => 0 refused 21",
    "x | ca(A,R) @ | x => 0 refused 21",
    "ca(R,R) | x | ee(T,A) @ => 1 refused 21",
    // malformed points
    "ca(R,R) | ee(T,R) @ => 1 refused 29",
    "ca(R,R) | ca(A,R) | ee(T,A) @ => 2 refused 29",
    "ca(R,R) | ca(A,R) @a @ | ee(T,A) @ => 1 refused 29",
    "ca(R,R) | ca(A,R) @ | x => 1 refused 29",
    // a certificate that has another fault too
    "ca(R,R) | ca(A,R){version 2} @ | ee(T,A) => 1 refused 23",
];

/// The same in the stated profile, in which points are not read.
const STATED: &[&str] = &[
    "ca(R,R) | ee(T,R) @a => [][]",
    "ca(R,R) | ca(A,R) @ | ee(T,A) @a+b => [][][]",
    "x | ee(T,R) => 0 refused 21",
    "ca(R,R) | ca(A,R) @ | x => 2 refused 21",
    "ca(R,R) | ca(A,R){version 2} @ | ee(T,A) => 1 refused 23",
];

/// Why a row has no answer: there is no memory for it, or its text is malformed.
#[derive(Clone, Copy, Debug, PartialEq, Eq)]
struct NoAnswer;

impl From<AllocError> for NoAnswer {
    fn from(_: AllocError) -> NoAnswer {
        NoAnswer
    }
}

impl<T: Drop> From<AllocFailed<T>> for NoAnswer {
    fn from(_: AllocFailed<T>) -> NoAnswer {
        NoAnswer
    }
}

/// The names of a point.
fn names_of<'t>(alloc: Global, text: &'t str) -> Result<Vec<&'t str>, NoAnswer> {
    let mut names = Vec::new(alloc);
    for name in text.split('+').filter(|name| !name.is_empty()) {
        names.push(name)?;
    }
    Ok(names)
}

/// The octets of a certificate with its points.
fn certificate_of(alloc: Global, text: &str) -> Result<Vec<u8>, NoAnswer> {
    let mut parts = text.split(" @");
    let certificate = parts.next().unwrap_or("");
    if certificate == "x" {
        return Ok(Vec::from_slice(alloc, b"x")?);
    }
    let mut lists = Vec::new(alloc);
    for part in parts {
        lists.push(names_of(alloc, part)?)?;
    }
    let mut points = Vec::new(alloc);
    for list in lists.iter() {
        points.push(list.as_slice())?;
    }
    certificate_at(alloc, certificate, &points, "R").ok_or(NoAnswer)
}

/// The octets of all certificates.
fn certificates_of(alloc: Global, text: &str) -> Result<Vec<Vec<u8>>, NoAnswer> {
    let mut all = Vec::new(alloc);
    for part in text.split(" | ") {
        all.push(certificate_of(alloc, part)?)?;
    }
    Ok(all)
}

/// A name without its identifier and length.
fn push_name(text: &mut String, name: &[u8]) -> Result<(), NoAnswer> {
    for octet in name.iter().skip(2) {
        text.push(char::from(*octet))?;
    }
    Ok(())
}

/// The names of a certificate's points.
fn push_names(text: &mut String, certificate: &Certificate<'_>) -> Result<(), NoAnswer> {
    text.push('[')?;
    for name in certificate.points.complete.iter() {
        text.push(' ')?;
        push_name(text, name)?;
    }
    for name in certificate.points.limited.iter() {
        text.push_str(" (")?;
        push_name(text, name)?;
        text.push(')')?;
    }
    text.push(']')?;
    Ok(())
}

fn push_query(text: &mut String, query: &Query<'_>) -> Result<(), NoAnswer> {
    push_names(text, &query.anchor)?;
    for certificate in query.path.iter() {
        push_names(text, certificate)?;
    }
    Ok(())
}

/// What is read, as a row has it.
fn told(alloc: Global, read: Result<Query<'_>, QueryFault>) -> Result<String, NoAnswer> {
    match read {
        Ok(query) => {
            let mut text = String::new(alloc);
            push_query(&mut text, &query)?;
            Ok(text)
        }
        Err(refusal) => {
            let (certificate, number) = (refusal.certificate, refusal.fault.number());
            Ok(format!(in alloc; "{certificate} refused {number}")?)
        }
    }
}

fn read_of(alloc: Global, profile: Profile, text: &str) -> Result<String, NoAnswer> {
    let octets = certificates_of(alloc, text)?;
    let mut texts = Vec::new(alloc);
    for one in octets.iter() {
        texts.push(one.as_slice())?;
    }
    let (anchor, path) = texts.as_slice().split_first().ok_or(NoAnswer)?;
    told(
        alloc,
        Query::read_with(alloc, anchor, path, 0, None, Options { profile }),
    )
}

/// Whether what is read of the row's certificates is what it has.
fn holds(alloc: Global, profile: Profile, row: &str) -> bool {
    match row.split_once(" => ") {
        Some((asked, wanted)) => match read_of(alloc, profile, asked) {
            Ok(text) => text.as_str() == wanted,
            Err(_) => false,
        },
        None => false,
    }
}

#[test]
fn points_are_read_in_the_wide_profile(rt: HostRuntime) -> Result<(), Fail> {
    for row in WIDE {
        assert!(rt; holds(rt.alloc(), Profile::Wide, row), "{row}");
    }
    Ok(())
}

#[test]
fn points_are_left_out_in_the_stated_profile(rt: HostRuntime) -> Result<(), Fail> {
    for row in STATED {
        assert!(rt; holds(rt.alloc(), Profile::Stated, row), "{row}");
    }
    Ok(())
}

/// The moment and the purpose are those that are asked for.
fn keeps_the_rest(alloc: Global) -> Result<bool, NoAnswer> {
    let anchor = certificate_of(alloc, "ca(R,R)")?;
    let leaf = certificate_of(alloc, "ee(T,R) @a")?;
    let purpose: Option<&[u8]> = Some(b"\x2A");
    let options = Options {
        profile: Profile::Wide,
    };
    match Query::read_with(alloc, &anchor, &[&leaf], -7, purpose, options) {
        Ok(query) => Ok(query.moment == -7 && query.purpose == purpose),
        Err(_) => Err(NoAnswer),
    }
}

#[test]
fn moment_and_purpose(rt: HostRuntime) {
    assert_eq!(rt; keeps_the_rest(rt.alloc()), Ok(true));
}
