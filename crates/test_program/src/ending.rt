//! Sessions that end: by a keeper, a reader or a writer that fails, a line that is too long, and memory that runs out.

use crate::keeping::{Told, ends, obliging, refusing};
use cli_steps::End;
use std::alloc::Global;
use std::io;
use std::io::{Read, Write};
use std::process::Abort;
use std::test::Fail;
use vectors::{certificate, revocation_list};

/// The most octets that a line may have.
const MOST: usize = 1 << 20;

/// Lines, and then an error.
#[derive(Drop)]
struct Failing<'a> {
    lines: &'a [u8],
}

impl Read for Failing<'_> {
    fn read(&mut self, buf: &mut [u8]) -> io::Result<usize> {
        if self.lines.is_empty() {
            return Err(io::Error::from(io::ErrorKind::Other));
        }
        self.lines.read(buf)
    }
}

/// What was written, how many writes are taken yet, and how many flushes.
#[derive(Drop)]
struct Output {
    written: Vec<u8>,
    writes: usize,
    flushes: usize,
}

impl Write for Output {
    fn write(&mut self, buf: &[u8]) -> io::Result<usize> {
        if self.writes == 0 {
            return Err(io::Error::from(io::ErrorKind::StorageFull));
        }
        self.writes -= 1;
        self.written.extend_from_slice(buf)?;
        Ok(buf.len())
    }

    fn flush(&mut self) -> io::Result<()> {
        if self.flushes == 0 {
            return Err(io::Error::from(io::ErrorKind::StorageFull));
        }
        self.flushes -= 1;
        Ok(())
    }
}

fn is_said(rt: &impl Abort, alloc: Global, lines: &[u8], keeper: Told, answers: &str, end: End) {
    let mut out = Vec::new(alloc);
    let mut input = lines;
    let ended = ends(alloc, keeper, &mut input, &mut out);
    assert!(rt; out.as_slice() == answers.as_bytes(), "{answers}");
    assert!(rt; ended == end, "{answers}");
}

#[test]
fn a_reader_fails(rt: HostRuntime) {
    let mut out = Vec::new(rt.alloc());
    let mut input = Failing {
        lines: b"forget\nforget",
    };
    let end = ends(rt.alloc(), obliging(), &mut input, &mut out);
    assert!(rt; end == End::Unreadable);
    assert!(rt; out.as_slice() == b"0 forgotten\n".as_slice());
}

// Whether a session of three answers, whose output takes so many writes and flushes, ends so, with that written.
fn is_cut(rt: &impl Abort, alloc: Global, writes: usize, flushes: usize, answers: &str) {
    let mut out = Output {
        written: Vec::new(alloc),
        writes,
        flushes,
    };
    let mut input: &[u8] = b"forget\nforget\nforget\n";
    let end = ends(alloc, obliging(), &mut input, &mut out);
    assert!(rt; end == End::Unwritable, "{writes} {flushes}");
    assert!(rt;
        out.written.as_slice() == answers.as_bytes(),
        "{writes} {flushes}"
    );
}

#[test]
fn a_writer_fails(rt: HostRuntime) {
    let alloc = rt.alloc();
    is_cut(&rt, alloc, 0, 3, "");
    is_cut(&rt, alloc, 2, 3, "0 forgotten\n0 forgotten\n");
    is_cut(&rt, alloc, 3, 0, "0 forgotten\n");
    is_cut(&rt, alloc, 3, 2, "0 forgotten\n0 forgotten\n0 forgotten\n");
}

// A line of so many octets, and then `forget`.
fn long(alloc: Global, octets: usize) -> Result<Vec<u8>, Fail> {
    let mut lines = Vec::new(alloc);
    lines.resize(octets, b'a')?;
    lines.extend_from_slice(b"\nforget\n")?;
    Ok(lines)
}

#[test]
fn a_line_is_too_long(rt: HostRuntime) -> Result<(), Fail> {
    let alloc = rt.alloc();
    let most = long(alloc, MOST)?;
    let answers = "5 bad line\n0 forgotten\n";
    is_said(
        &rt,
        alloc,
        most.as_slice(),
        obliging(),
        answers,
        End::Finished,
    );
    let more = long(alloc, MOST + 1)?;
    let answers = "5 line too long\n0 forgotten\n";
    is_said(
        &rt,
        alloc,
        more.as_slice(),
        obliging(),
        answers,
        End::Finished,
    );
    Ok(())
}

// `hex:` and the octets.
fn push_operand(alloc: Global, line: &mut Vec<u8>, octets: &[u8]) -> Result<(), Fail> {
    line.extend_from_slice(b" hex:")?;
    let digits = hex::encode(alloc, octets)?;
    line.extend_from_slice(digits.as_bytes())?;
    Ok(())
}

// The words, with the root's certificate and its list as operands.
fn of_list(alloc: Global, words: &str) -> Result<Vec<u8>, Fail> {
    let mut line = Vec::from_slice(alloc, words.as_bytes())?;
    push_operand(alloc, &mut line, certificate(alloc, "ca(R,R)")?.as_slice())?;
    push_operand(
        alloc,
        &mut line,
        revocation_list(alloc, "crl(R,5)")?.as_slice(),
    )?;
    line.push(b'\n')?;
    Ok(line)
}

// Lines that believe the signature of the root's list, and then deliver the list.
fn delivery(alloc: Global) -> Result<Vec<u8>, Fail> {
    let prints = of_list(alloc, "prints crl")?;
    let mut out = Vec::new(alloc);
    let mut input = prints.as_slice();
    let _ = ends(alloc, obliging(), &mut input, &mut out);
    let mut lines = Vec::from_slice(alloc, b"believe ")?;
    let Some(digits) = out.as_slice().get(4..68) else {
        return Err(Fail::from("no fingerprint"));
    };
    lines.extend_from_slice(digits)?;
    lines.push(b'\n')?;
    lines.extend_from_slice(of_list(alloc, "deliver")?.as_slice())?;
    Ok(lines)
}

#[test]
fn a_keeper_answers_or_refuses(rt: HostRuntime) -> Result<(), Fail> {
    let alloc = rt.alloc();
    let mut lines = delivery(alloc)?;
    lines.extend_from_slice(b"forget\n")?;
    let lines = lines.as_slice();
    let answers = "0 believed\n0 stored 1 kept 0 contradicted 0\n0 forgotten\n";
    is_said(&rt, alloc, lines, obliging(), answers, End::Finished);
    let shut = Told {
        may_answer: false,
        ..obliging()
    };
    is_said(&rt, alloc, lines, shut, answers, End::Finished);
    let answers = "0 believed\n6 store fault 71\n0 forgotten\n";
    is_said(&rt, alloc, lines, refusing(true), answers, End::Finished);
    let answers = "0 believed\n6 store fault 71\n";
    is_said(&rt, alloc, lines, refusing(false), answers, End::Shut);
    let listing = b"list\nforget\n";
    let answers = "6 store fault 71\n";
    is_said(&rt, alloc, listing, refusing(false), answers, End::Shut);
    Ok(())
}

// More lines than any count of lines at which a session might end.
const MANY: usize = 100_000;

#[test]
fn many_lines_are_served(rt: HostRuntime) -> Result<(), Fail> {
    let alloc = rt.alloc();
    let mut lines = Vec::new(alloc);
    lines.resize(MANY, b'\n')?;
    lines.extend_from_slice(b"forget\n")?;
    let answers = "0 forgotten\n";
    is_said(
        &rt,
        alloc,
        lines.as_slice(),
        obliging(),
        answers,
        End::Finished,
    );
    Ok(())
}
