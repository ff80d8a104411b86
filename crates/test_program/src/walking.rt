//! Runs, step by step: their words, what they print, and their status.

use crate::shelf::{Disks, Text};
use cli::{Source, Stores, execute};
use std::alloc::{AllocError, Global};
use std::test::Fail;
use store::Store;
use vectors::{certificate, revocation_list};

// The texts that hold certificates and lists: each has a name, and what it holds.
const TEXTS: &str = "
r.der = ca(R,R)
l.der = ee(L,R)
m.der = ee(M,R){serial 0102}
c.crl = crl(R,5)
d.crl = crl(R,6,[0102 1])
e.crl = crl(R,5,[05 1])
";

// The runs whose lines are the verdicts.
const PRINTS: &str = "
prints --issuer r.der l.der
prints --issuer r.der m.der
prints --issuer r.der --as crl c.crl
prints --issuer r.der --as crl d.crl
prints --issuer r.der --as crl e.crl
";

/// What runs over these files and stores are given, and what they read.
#[derive(Clone, Copy)]
pub struct Runs<'s, S> {
    pub source: &'s S,
    pub alloc: Global,
    pub input: &'s [u8],
}

/// The octets of the certificate, or of the list, that the text asks for.
pub fn octets_of(alloc: Global, text: &str) -> Result<Vec<u8>, Fail> {
    let octets = if text.starts_with("crl") {
        revocation_list(alloc, text).ok()
    } else {
        certificate(alloc, text).ok()
    };
    Ok(octets.ok_or("notation")?)
}

/// What holds them.
pub fn texts(alloc: Global) -> Result<Vec<Text<'static>>, Fail> {
    let mut texts = Vec::new(alloc);
    for line in TEXTS.lines().skip(1) {
        let (name, said) = line.split_once(" = ").ok_or("a name")?;
        let octets = octets_of(alloc, said)?;
        texts.push(Text { name, octets })?;
    }
    Ok(texts)
}

// The words of a line, behind the program's name.
fn words_of<'a>(alloc: Global, line: &'a str) -> Result<Vec<&'a str>, AllocError> {
    let mut words: Vec<&'a str> = Vec::new(alloc);
    words.push("x509check")?;
    for word in line.split_whitespace() {
        words.push(word)?;
    }
    Ok(words)
}

/// What a run printed on its two outputs, and its status.
#[derive(Drop)]
pub struct Printed {
    pub status: u8,
    pub out: Vec<u8>,
    pub err: Vec<u8>,
}

impl<S: Source + Stores<Store<Disks>>> Runs<'_, S> {
    fn run(&self, words: &[&str]) -> Printed {
        let (mut out, mut err) = (Vec::new(self.alloc), Vec::new(self.alloc));
        let mut input = self.input;
        let status = execute(
            self.source,
            self.alloc,
            words,
            &mut input,
            &mut out,
            &mut err,
        );
        Printed { status, out, err }
    }

    /// What the run of these words prints.
    pub fn run_line(&self, line: &str) -> Result<Printed, AllocError> {
        let words = words_of(self.alloc, line)?;
        Ok(self.run(words.as_slice()))
    }

    // Whether the step goes as its lines say.
    fn goes_so(&self, step: &str) -> Result<bool, AllocError> {
        let (line, answer) = step.split_once('\n').unwrap_or((step, ""));
        let (text, number) = answer.rsplit_once("status ").unwrap_or(("", ""));
        let printed = self.run_line(line)?;
        Ok(match number.trim_end().parse() {
            Ok(status) => is_printed(&printed, status, text),
            Err(_) => false,
        })
    }

    /// Walks the steps. Each has its words, what it prints, and its status.
    pub fn walk(&self, steps: &str) -> Result<(), Fail> {
        for step in steps.split('$').skip(1) {
            if !self.goes_so(step)? {
                return Err(Fail::new(format_args!("not so: ${step}")));
            }
        }
        Ok(())
    }

    /// The lines that the runs print whose lines are the verdicts.
    pub fn verdicts(&self) -> Result<Vec<u8>, Fail> {
        let mut all = Vec::new(self.alloc);
        for line in PRINTS.lines().skip(1) {
            let printed = self.run_line(line)?;
            all.extend_from_slice(printed.out.as_slice())?;
        }
        Ok(all)
    }
}

/// Whether this is printed, on one of the two outputs, and with that status.
pub fn is_printed(printed: &Printed, status: u8, text: &str) -> bool {
    let (out, err) = if text.starts_with("x509check: ") {
        ("", text)
    } else {
        (text, "")
    };
    printed.status == status
        && printed.out.as_slice() == out.as_bytes()
        && printed.err.as_slice() == err.as_bytes()
}
