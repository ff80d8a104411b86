//! What the program answers: steps as a user types them, and rows of octets.

use crate::output::Output;
use crate::printed::{CERTIFICATE, LINES, PRINT};
use crate::walking::{run, walk, words_of};
use cli::execute;
use details::ALL_LINES;
use refused::{NO_CERTIFICATES, REFUSED, REFUSED_TAILS};
use rows::{octets_of, put, row_holds, walk_rows};
use shown::SHOWN;
use std::alloc::{AllocError, Global};
use std::fs;
use std::test::Fail;

mod details;
mod fingerprints;
mod hints;
mod lists;
mod refused;
mod responses;
mod rows;
mod shown;
mod tutorial;

// Values, and what `tree` prints of them.
const TREES: &str = "
> 3000
30 0
> 3006020105040100
30 6
  02 1 05
  04 1 00
> 30800000
refused 2 LengthForm at 0
> 02817F
refused 2 LengthForm at 0
> 3084FFFFFFFF
refused 3 TooLong at 0
> 1F
refused 1 TagForm at 0
> 2203020101
refused 1 TagForm at 0
> no octets:
refused 4 Truncated at 0
> 020301
refused 4 Truncated at 0
> 3003020201
refused 4 Truncated at 2
> 050000
refused 7 Trailing at 2
> 0202007F
refused 6 Content at 0
> 02020080
02 2 0080
> 30080101FF0500020180
30 8
  01 1 ff
  05 0
  02 1 80
> 0400
04 0
> A1043002A000
a1 4
  30 2
    a0 0
> 32 deep: 303E303C303A30383036303430323030302E302C302A30283026302430223020301E301C301A301830163014\
30123010300E300C300A30083006300430023000
30 62
  30 60
    30 58
      30 56
        30 54
          30 52
            30 50
              30 48
                30 46
                  30 44
                    30 42
                      30 40
                        30 38
                          30 36
                            30 34
                              30 32
                                30 30
                                  30 28
                                    30 26
                                      30 24
                                        30 22
                                          30 20
                                            30 18
                                              30 16
                                                30 14
                                                  30 12
                                                    30 10
                                                      30 8
                                                        30 6
                                                          30 4
                                                            30 2
                                                              30 0
> 33 deep: 3040303E303C303A30383036303430323030302E302C302A30283026302430223020301E301C301A30183016\
301430123010300E300C300A30083006300430023000
refused 5 TooDeep at 64
";

#[test]
fn trees_are_printed_or_refused(rt: HostRuntime) -> Result<(), Fail> {
    walk_rows(&rt, "tree execution_trees.der", TREES)
}

#[test]
fn certificates_are_shown(rt: HostRuntime) -> Result<(), Fail> {
    walk_rows(&rt, "show execution_shown.der", SHOWN)
}

#[test]
fn other_certificates_are_refused(rt: HostRuntime) -> Result<(), Fail> {
    for rows in [REFUSED, REFUSED_TAILS, NO_CERTIFICATES] {
        walk_rows(&rt, "show execution_refused.der", rows)?;
    }
    Ok(())
}

// A row of the plain certificate with so many alternative names, each of the form 1 and empty, behind the beginning of its extensions.
fn names_row(alloc: Global, begin: &str, count: u16) -> Result<String, AllocError> {
    let mut row = String::new(alloc);
    row.push_str(" names: tail ")?;
    row.push_str(begin)?;
    for _ in 0..count {
        row.push_str("8100")?;
    }
    row.push_str("\n")?;
    Ok(row)
}

#[test]
fn as_many_names_are_shown_as_are_served(rt: HostRuntime) -> Result<(), Fail> {
    let begin = "A3822015308220113082200D0603551D110482200430822000";
    let mut row = names_row(rt.alloc(), begin, 4096)?;
    for _ in 0..4096 {
        row.push_str("alt 1\n")?;
    }
    assert!(rt;
        row_holds(&rt, "show execution_names.der", row.as_str())?,
        "4096 names"
    );
    let begin = "A3822017308220133082200F0603551D110482200630822002";
    let mut row = names_row(rt.alloc(), begin, 4097)?;
    row.push_str("refused 32 Limit at 8311\n")?;
    assert!(rt;
        row_holds(&rt, "show execution_names.der", row.as_str())?,
        "4097 names"
    );
    Ok(())
}

const MISSING: &str = "
$ tree execution_none.der
x509check: cannot read execution_none.der
status 6
$ show execution_none.der
x509check: cannot read execution_none.der
status 6
";

#[test]
fn a_missing_file_cannot_be_read(rt: HostRuntime) -> Result<(), Fail> {
    walk(&rt, MISSING)
}

const EXPLAINED: &str = "
$ explain Expired
rank 4 Expired: The moment is after the certificate's notAfter. The certificate has to be renewed. (RFC 5280, 6.1.3 (a) (2))
status 0
$ explain 17
fault 17 MaskForm: A mask that is not ones and then zeros. Ask the issuer for a new certificate. (RFC 5280, 4.2.1.10)
rank 17 NoValidPolicy: A policy is required, and the certificate has none that those above it allow. It is told only if policies are asked for. Use another path, or ask without requiring a policy. (RFC 5280, 6.1.3 (f))
status 0
$ explain reason 5
reason 5 cessationOfOperation: The certificate is no longer needed; the key is not known to be in other hands. (RFC 5280, 5.3.1)
status 0
$ explain fault 99
x509check: bad topic
status 5
$ explain fault 17 LengthForm
x509check: bad topic
status 5
";

#[test]
fn faults_and_reasons_are_explained(rt: HostRuntime) -> Result<(), Fail> {
    walk(&rt, EXPLAINED)
}

// Statuses, and the words behind the program's name. Help is printed on standard output, what is wrong on standard error.
const WORDS: &str = "\
5
5 tree
5 tree a b
5 tree --deep a
5 grow a
5 show
5 show a b
5 show --as csr a
5 show --all
5 show --all=no a
5 show --as cert
5 prints a
5 prints --issuer a
5 prints --issuer a b c
5 prints --issuer a --as csr b
5 prints --as cert b
5 explain --deep
0 --help
0 show --help
0 prints --help
0 tree --help
0 explain --help
0 explain
0 help
";

// Whether the run ends with this status, and prints help for 0, and else what is wrong.
fn is_told(rt: &HostRuntime, words: &[&str], status: u8) -> bool {
    let (mut out, mut err) = (Output::new(rt.alloc()), Vec::new(rt.alloc()));
    let ended = run(rt, words, &mut out, &mut err);
    let is_help = status == 0;
    ended == status && out.written.is_empty() != is_help && err.is_empty() == is_help
}

#[test]
fn words_are_answered(rt: HostRuntime) -> Result<(), Fail> {
    assert!(rt; is_told(&rt, &[], 5), "no words");
    for row in WORDS.lines() {
        let (number, line) = row.split_once(' ').unwrap_or((row, ""));
        let status = number.parse().unwrap_or(255);
        let words = words_of(rt.alloc(), line)?;
        assert!(rt; is_told(&rt, words.as_slice(), status), "{row}");
    }
    Ok(())
}

// Whether the run on a file of these octets wants memory, or prints this text.
fn wants_or_prints(rt: &HostRuntime, words: &[&str], octets: &[u8], text: &[u8]) -> bool {
    let Some(file) = words.last() else {
        return false;
    };
    // The file of the test may want memory too.
    if fs::write(rt, file, octets).is_err() {
        return true;
    }
    let (mut out, mut err) = (Output::new(rt.alloc()), Vec::new(rt.alloc()));
    match run(rt, words, &mut out, &mut err) {
        0 => out.written.as_slice() == text,
        status => status == 6,
    }
}

/// Holds whether an allocation is refused or not: `rt try --test --fail-alloc N` refuses the Nth.
#[test]
fn wants_memory_or_answers(rt: HostRuntime) {
    let words = ["x509check", "tree", "execution_memory.der"];
    assert!(rt;
        wants_or_prints(&rt, &words, &[0x05, 0x00], b"05 0\n"),
        "tree"
    );
    // A certificate of a DNS name and an unrecognised extension, which take memory to be read.
    let words = ["x509check", "show", "execution_wanting.der"];
    assert!(rt; wants_or_prints(&rt, &words, CERTIFICATE, LINES), "show");
    let words = ["x509check", "show", "--all", "execution_wanting.der"];
    assert!(rt;
        wants_or_prints(&rt, &words, CERTIFICATE, ALL_LINES),
        "show --all"
    );
    let file = "execution_asking.der";
    let words = ["x509check", "prints", "--issuer", file, file];
    assert!(rt; wants_or_prints(&rt, &words, CERTIFICATE, PRINT), "prints");
}

// Whether a run that cannot write so many times, or not to the end, says so.
fn cannot_write(rt: &HostRuntime, line: &str, left: usize) -> Result<bool, AllocError> {
    let words = words_of(rt.alloc(), line)?;
    let (mut out, mut err) = (Output::failing(rt.alloc(), left), Vec::new(rt.alloc()));
    let status = run(rt, words.as_slice(), &mut out, &mut err);
    Ok(status == 6 && err.as_slice() == b"x509check: cannot write\n".as_slice())
}

// The words of runs of which the output fails.
const FULL: &str = "\
tree execution_full.der
show execution_full.der
show --all execution_full.der
prints --issuer execution_full.der execution_full.der
explain 17
--help
";

#[test]
fn a_failed_output_cannot_be_written(rt: HostRuntime) -> Result<(), Fail> {
    fs::write(&rt, "execution_full.der", CERTIFICATE)?;
    for line in FULL.lines() {
        assert!(rt; cannot_write(&rt, line, 0)?, "{line}, no write");
        assert!(rt; cannot_write(&rt, line, usize::MAX)?, "{line}, no end");
    }
    Ok(())
}
