//! Steps, written as in a shell: a line of `$` and the words behind the program's name, the lines that are printed, and the status.
//!
//!     $ show missing.der
//!     x509check: cannot read missing.der
//!     status 6
//!
//! What is printed is on standard error where it begins with `x509check: `, and else on standard output. The other one is empty.

use crate::output::Output;
use cli::execute;
use std::alloc::{AllocError, Global};
use std::test::Fail;

/// The words of a line, behind the program's name.
pub(crate) fn words_of<'a>(alloc: Global, line: &'a str) -> Result<Vec<&'a str>, AllocError> {
    let mut words: Vec<&'a str> = Vec::new(alloc);
    words.push("x509check")?;
    for word in line.split_whitespace() {
        words.push(word)?;
    }
    Ok(words)
}

/// Runs the program.
pub(crate) fn run(rt: &HostRuntime, words: &[&str], out: &mut Output, err: &mut Vec<u8>) -> u8 {
    let mut input: &[u8] = &[];
    execute(rt, rt.alloc(), words, &mut input, out, err)
}

/// Whether the run ends with this status and prints this text.
pub(crate) fn ends_so(
    rt: &HostRuntime,
    line: &str,
    status: u8,
    text: &str,
) -> Result<bool, AllocError> {
    let words = words_of(rt.alloc(), line)?;
    let (mut out, mut err) = (Output::new(rt.alloc()), Vec::new(rt.alloc()));
    let ended = run(rt, words.as_slice(), &mut out, &mut err);
    let (out_text, err_text) = if text.starts_with("x509check: ") {
        ("", text)
    } else {
        (text, "")
    };
    Ok(
        ended == status
            && out.written.as_slice() == out_text.as_bytes()
            && err.as_slice() == err_text.as_bytes(),
    )
}

// Whether the step goes as its lines say.
fn goes_so(rt: &HostRuntime, step: &str) -> Result<bool, AllocError> {
    let (line, answer) = step.split_once('\n').unwrap_or((step, ""));
    let (text, number) = answer.rsplit_once("status ").unwrap_or(("", ""));
    match number.trim_end().parse() {
        Ok(status) => ends_so(rt, line, status, text),
        Err(_) => Ok(false),
    }
}

/// Takes the steps one after the other. One that goes otherwise is named, with what it was to print.
pub(crate) fn walk(rt: &HostRuntime, steps: &str) -> Result<(), Fail> {
    for step in steps.split('$').skip(1) {
        if !goes_so(rt, step)? {
            return Err(Fail::new(format_args!("not so: ${step}")));
        }
    }
    Ok(())
}
