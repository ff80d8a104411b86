//! Paths with their verdicts, found among certificates in any order, by lists at hand. `None` is answered if a text cannot be read, or there
//! is no memory for it.

use crate::notation::{MIDDLE, read_all};
use cert::Certificate;
use path_search::{Budget, Options, Search};
use relying_search::{Finding, FindingBudget};
use relying_texts::{Verdict, find};
use statements::Statement;
use std::alloc::Global;
use std::fmt::Write;
use std::test::Fail;
use vectors::{ToyVerifier, certificate, revocation_list};

/// One search a line: its name; the anchors; the bag; the target; the lists, with ` ; ` between those of one part; how many valid paths may
/// be asked about; and the finding: the place of the anchor, a colon, the places in the bag from the target upward, and the verdict. The
/// moment is 2025-06-15.
const ROWS: &str = "
# One path
valid | ca(R,R) | ca(A,R) | ee(T,A) | crl(R,5) ; crl(A,5) | 9 | 0 : 0 = valid
no list | ca(R,R) | ca(A,R) | ee(T,A) | | 9 | 0 : 0 = unknown 1
a list for the upper one alone | ca(R,R) | ca(A,R) | ee(T,A) | crl(R,5) | 9 | 0 : 0 = unknown 2
the target is revoked | ca(R,R) | ca(A,R) | ee(T,A) | crl(R,5) ; crl(A,5,[05 1]) | 9 | 0 : 0 = revoked 2 1
a list that another key signed | ca(R,R) | | ee(T,R) | crl(R,5){signed X} | 9 | 0 : = unknown 1
a list of a certificate that is in no path | ca(R,R) | ca(X,Y) | ee(T,R) | crl(R,5) ; crl(X,5) | 9 | 0 : = valid
no path, whatever the lists say | ca(R,R) | ca(A,R) | ee(T,B) | crl(R,5) ; crl(A,5) | 9 | none
# Several paths
the first is revoked, the second valid | ca(R,R) ; ca(S,S) | ca(A,R) ; ca(A,S) | ee(T,A) | crl(R,5,[05 4]) ; crl(S,5) ; crl(A,5) | 9 | 1 : 1 = valid
the first has no list, the second is valid | ca(R,R) ; ca(S,S) | ca(A,R) ; ca(A,S) | ee(T,A) | crl(S,5) ; crl(A,5) | 9 | 1 : 1 = valid
the first is valid, the second revoked | ca(R,R) ; ca(S,S) | ca(A,R) ; ca(A,S) | ee(T,A) | crl(R,5) ; crl(S,5,[05 4]) ; crl(A,5) | 9 | 0 : 0 = valid
both are revoked: the first | ca(R,R) ; ca(S,S) | ca(A,R) ; ca(A,S) | ee(T,A) | crl(R,5,[05 4]) ; crl(S,5,[05 1]) ; crl(A,5) | 9 | 0 : 0 = revoked 1 4
the first has no list, the second is revoked: the first | ca(R,R) ; ca(S,S) | ca(A,R) ; ca(A,S) | ee(T,A) | crl(S,5,[05 1]) ; crl(A,5) | 9 | 0 : 0 = unknown 1
the shorter one is revoked, the longer valid | ca(R,R) | ca(B,R){serial 09} ; ca(A,R) ; ca(B,A) | ee(T,B) | crl(R,5,[09 1]) ; crl(A,5) ; crl(B,5) | 9 | 0 : 2 1 = valid
# How many may be asked about
one path, one | ca(R,R) | | ee(T,R) | crl(R,5,[05 1]) | 1 | 0 : = revoked 1 1
one path, none | ca(R,R) | | ee(T,R) | crl(R,5) | 0 | gave up
no path, none | ca(R,R) | | ee(T,A) | crl(R,5) | 0 | none
two paths, one, and it is not valid | ca(R,R) ; ca(S,S) | ca(A,R) ; ca(A,S) | ee(T,A) | crl(S,5) ; crl(A,5) | 1 | gave up
two paths, one, and it is valid | ca(R,R) ; ca(S,S) | ca(A,R) ; ca(A,S) | ee(T,A) | crl(R,5) ; crl(A,5) | 1 | 0 : 0 = valid
";

/// What a row asks, and the finding that it wants.
#[derive(Clone, Copy)]
struct Row<'t> {
    name: &'t str,
    anchors: &'t str,
    bag: &'t str,
    target: &'t str,
    lists: &'t str,
    verdicts: &'t str,
    wanted: &'t str,
}

/// The parts of a row, between which bars stand.
fn row_of(row: &str) -> Row<'_> {
    let mut parts = row.split('|').map(str::trim);
    Row {
        name: parts.next().unwrap_or(""),
        anchors: parts.next().unwrap_or(""),
        bag: parts.next().unwrap_or(""),
        target: parts.next().unwrap_or(""),
        lists: parts.next().unwrap_or(""),
        verdicts: parts.next().unwrap_or(""),
        wanted: parts.next().unwrap_or(""),
    }
}

/// Adds the octets of the certificates that the texts ask for.
fn add_certificates(alloc: Global, texts: &str, all: &mut Vec<Vec<u8>>) -> Option<()> {
    for text in texts.split(';').map(str::trim) {
        if !text.is_empty() {
            all.push(certificate(alloc, text).ok()?).ok()?;
        }
    }
    Some(())
}

/// The octets of the lists that the texts ask for.
fn lists_of(alloc: Global, texts: &str) -> Option<Vec<Vec<u8>>> {
    let mut all = Vec::new(alloc);
    for text in texts.split(';').map(str::trim) {
        if !text.is_empty() {
            all.push(revocation_list(alloc, text).ok()?).ok()?;
        }
    }
    Some(all)
}

/// The certificates that the octets are.
fn certificates_of(alloc: Global, all: &[Vec<u8>]) -> Option<Vec<Certificate<'_>>> {
    let mut read = Vec::new(alloc);
    for octets in all {
        read.push(Certificate::read(alloc, octets).ok()?).ok()?;
    }
    Some(read)
}

/// Writes a verdict as a row has it.
fn write_verdict(text: &mut String, verdict: Verdict) -> Option<()> {
    match verdict {
        Verdict::Valid => write!(text, " = valid"),
        Verdict::Invalid(number, _) => write!(text, " = invalid {number}"),
        Verdict::Revoked(number, reason) => write!(text, " = revoked {number} {reason}"),
        Verdict::Unknown(number) => write!(text, " = unknown {number}"),
    }
    .ok()
}

/// The finding as a row has it.
fn text_of(alloc: Global, finding: &Finding) -> Option<String> {
    let mut text = String::new(alloc);
    match finding {
        Finding::NotFound => write!(text, "none").ok()?,
        Finding::GaveUp => write!(text, "gave up").ok()?,
        Finding::Found(path, verdict) => {
            write!(text, "{} :", path.anchor).ok()?;
            for place in &path.above {
                write!(text, " {place}").ok()?;
            }
            write_verdict(&mut text, *verdict)?;
        }
    }
    Some(text)
}

/// What is found among certificates, of which the first are the anchors, so many, and the last is the target.
fn found_over(
    alloc: Global,
    all: &[Certificate<'_>],
    anchors: usize,
    statements: &[Statement<'_>],
    verdicts: usize,
) -> Option<String> {
    let (anchors, behind) = all.split_at_checked(anchors)?;
    let (target, bag) = behind.split_last()?;
    let search = Search {
        anchors,
        bag,
        target,
        moment: MIDDLE,
        purpose: None,
        options: Options::stated(),
    };
    let budget = FindingBudget {
        search: Budget {
            signatures: 100,
            steps: 100,
        },
        verdicts,
    };
    let finding = find(alloc, &ToyVerifier, &search, statements, budget).ok()?;
    text_of(alloc, &finding)
}

/// What is found of what the row asks.
fn found_of(alloc: Global, row: &Row<'_>) -> Option<String> {
    let mut octets = Vec::new(alloc);
    add_certificates(alloc, row.anchors, &mut octets)?;
    let anchors = octets.len();
    add_certificates(alloc, row.bag, &mut octets)?;
    add_certificates(alloc, row.target, &mut octets)?;
    let certificates = certificates_of(alloc, &octets)?;
    let texts = lists_of(alloc, row.lists)?;
    let lists = read_all(alloc, &texts)?;
    let verdicts = row.verdicts.parse().ok()?;
    found_over(alloc, &certificates, anchors, &lists, verdicts)
}

#[test]
fn the_first_path_with_the_verdict_valid_is_found(rt: HostRuntime) -> Result<(), Fail> {
    for line in ROWS.lines().filter(|line| line.contains('|')) {
        let row = row_of(line);
        let found = found_of(rt.alloc(), &row).ok_or("a finding")?;
        assert_eq!(rt; found.as_str(), row.wanted, "{}", row.name);
    }
    Ok(())
}
