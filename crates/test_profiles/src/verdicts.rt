//! Verdicts on paths whose constraints on mail addresses and URIs are processed, by lists of the authorities.

use crate::asking::{RowFault, octets_of, question};
use relying_agreement::Verdict;
use relying_texts::verdict;
use statements::Statement;
use std::alloc::Global;
use std::test::Fail;
use vectors::{ToyVerifier, revocation_list};

/// A verdict, the lists, and the certificates below the anchor R, between strokes.
const ROWS: &str = "
valid ; crl(R,1) crl(A,1) ; ca(A,R){permit mail example.com} / ee(T,A){mail a@example.com}
revoked 2 0 ; crl(R,1) crl(A,1,[05]) ; ca(A,R){permit mail example.com} / ee(T,A){mail a@example.com}
unknown 2 ; crl(R,1) ; ca(A,R){permit mail example.com} / ee(T,A){mail a@example.com}
invalid 2 6 NotPermitted ; crl(R,1) crl(A,1) ; ca(A,R){permit mail example.com} / ee(T,A){mail a@example.org}
invalid 2 6 NotPermitted ; crl(R,1) crl(A,1,[05]) ; ca(A,R){permit mail example.com} / ee(T,A){mail a@example.org}
invalid 2 7 Excluded ; crl(R,1) ; ca(A,R){exclude uri .example.com} / ee(T,A){uri http://a.example.com/}
invalid 1 2 Signature ; crl(R,1) crl(A,1) ; ca(A,R){permit mail example.com}{signed B} / ee(T,A){mail a@example.org}
invalid 2 2 Signature ; crl(R,1) crl(A,1) ; ca(A,R){permit mail example.com} / ee(T,A){mail a@example.org}{signed B}
";

fn lists_of(alloc: Global, texts: &str) -> Result<Vec<Vec<u8>>, RowFault> {
    let mut lists = Vec::new(alloc);
    for text in texts.split_whitespace() {
        lists.push(revocation_list(alloc, text)?)?;
    }
    Ok(lists)
}

fn statements_in(alloc: Global, lists: &[Vec<u8>]) -> Result<Vec<Statement<'_>>, RowFault> {
    let mut read = Vec::new(alloc);
    for list in lists {
        read.push(Statement::read(alloc, list)?)?;
    }
    Ok(read)
}

fn verdict_on(alloc: Global, lists: &str, path: &str) -> Result<Verdict, RowFault> {
    let octets = octets_of(alloc, path)?;
    let query = question(alloc, &octets)?;
    let lists = lists_of(alloc, lists)?;
    let statements = statements_in(alloc, &lists)?;
    Ok(verdict(alloc, &ToyVerifier, &query, &statements)?)
}

fn text_of(alloc: Global, verdict: Verdict) -> Result<String, RowFault> {
    let text = match verdict {
        Verdict::Valid => format!(in alloc; "valid"),
        Verdict::Revoked(number, reason) => format!(in alloc; "revoked {number} {reason}"),
        Verdict::Unknown(number) => format!(in alloc; "unknown {number}"),
        Verdict::Invalid(number, reason) => {
            format!(in alloc; "invalid {number} {} {}", reason.rank(), reason.name())
        }
    };
    Ok(text?)
}

fn columns_of(row: &str) -> Option<(&str, &str, &str)> {
    let mut columns = row.split(';').map(str::trim);
    Some((columns.next()?, columns.next()?, columns.next()?))
}

#[test]
fn each_row_has_its_verdict(rt: HostRuntime) -> Result<(), Fail> {
    for row in ROWS.lines().filter(|row| row.contains(';')) {
        let (wanted, lists, path) = columns_of(row).ok_or("three columns")?;
        let verdict = verdict_on(rt.alloc(), lists, path).map_err(|_| "a verdict")?;
        let text = text_of(rt.alloc(), verdict).map_err(|_| "a text")?;
        assert_eq!(rt; text.as_str(), wanted, "{row}");
    }
    Ok(())
}

#[test]
fn no_row_is_lost(rt: HostRuntime) {
    assert_eq!(rt; ROWS.lines().filter(|row| row.contains(';')).count(), 8);
}

#[test]
fn verdicts_want_memory_or_answer(rt: HostRuntime) {
    let path = "ca(A,R){permit mail example.com} / ee(T,A){mail a@example.com}";
    match verdict_on(rt.alloc(), "crl(R,1) crl(A,1)", path) {
        Ok(verdict) => assert_eq!(rt; verdict, Verdict::Valid),
        Err(fault) => assert_eq!(rt; fault, RowFault::Memory),
    }
}
