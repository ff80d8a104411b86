//! `x509check`: looks at X.509 certificates and at what says that they are revoked.
#![tactic(auto)]

mod version;

use crate::version::SOURCES;
use cli::{AnyFiles, start};
use std::io::Write;
use std::process::ExitCode;
use std::{env, io};

const VERSION: &str = "1.2.0";

// The kit that proved and built it.
const KIT: &str = "rattle-kit-13f logic dac8208d650f15bf";

const DONE: u8 = 0;

// The exit status if no run could begin, or the version could not be written.
const NO_RUN: u8 = 6;

fn main(rt: HostRuntime) -> ExitCode {
    match run(&rt) {
        Ok(status) => ExitCode::from(status),
        Err(error) => {
            let _ = writeln!(rt.stderr(), "x509check: {}", reason_of(&error));
            ExitCode::from(NO_RUN)
        }
    }
}

fn reason_of(error: &io::Error) -> &'static str {
    match error.kind() {
        io::ErrorKind::OutOfMemory => "no memory",
        // A word is no UTF-8.
        _ => "cannot read the words",
    }
}

// Whether the words, of which the first is the program's name, ask for the version.
fn asks_for_version(words: &[&str]) -> bool {
    match words {
        [_, word] => *word == "--version",
        _ => false,
    }
}

fn write_version<O: Write>(out: &mut O) -> io::Result<()> {
    writeln!(out, "x509check {VERSION}")?;
    writeln!(out, "{KIT}")?;
    writeln!(out, "sources {SOURCES}")?;
    out.flush()
}

fn tell_version<O: Write, E: Write>(out: &mut O, err: &mut E) -> u8 {
    match write_version(out) {
        Ok(()) => DONE,
        Err(_) => {
            let _ = writeln!(err, "x509check: cannot write");
            NO_RUN
        }
    }
}

fn run(rt: &HostRuntime) -> io::Result<u8> {
    let words: Vec<String> = env::args(rt)?.collect(rt.alloc())?;
    let texts: Vec<&str> = words.iter().map(|word| word.as_str()).collect(rt.alloc())?;
    let mut out = io::BufWriter::new(rt.alloc(), rt.stdout())?;
    let mut input = io::BufReader::new(rt.alloc(), rt.stdin())?;
    let (words, err) = (texts.as_slice(), &mut rt.stderr());
    if asks_for_version(words) {
        return Ok(tell_version(&mut out, err));
    }
    let status = start(rt, AnyFiles, rt.alloc(), words, &mut input, &mut out, err);
    Ok(status)
}
