//! What to do about failures, in a line behind each, if it is asked for.

use super::fingerprints::{LEAF, ROOT};
use super::rows::put;
use crate::output::Output;
use crate::walking::words_of;
use cli::{AnyFiles, start};
use std::fs;
use std::test::Fail;

// The words, what is printed on standard error, and the status.
const ROWS: &[(&str, &str, u8)] = &[
    (
        "--hints show missing.der",
        "x509check: cannot read missing.der\nhint: there is no file missing.der\n",
        6,
    ),
    (
        "--hints show .",
        "x509check: cannot read .\nhint: . is a folder, and a file is wanted\n",
        6,
    ),
    (
        "--hints show --as crl hints.pem",
        "x509check: hints.pem: refused 4 Truncated at 2\n\
         hint: hints.pem is PEM, and DER is wanted: 'to_der hints.pem > FILE' converts it\n",
        4,
    ),
    (
        "--wait 0 --hints show --as ocsp hints_leaf.der",
        "x509check: hints_leaf.der: refused 42 Layout at 3\n\
         hint: hints_leaf.der has to hold an OCSP response in DER: 'x509check explain 42' says what is wrong with it\n",
        4,
    ),
    (
        "--hints check --store none --verdicts /dev/null --at now --anchor a b",
        "x509check: bad time\n\
         hint: --at 'now' is no moment: write YYYYMMDDHHMMSSZ, as 20261201000000Z for the begin of December 2026 in UTC\n",
        5,
    ),
    (
        "--hints check --store none --verdicts hints.pem --at 20250601000000Z --anchor a b",
        "x509check: hints.pem: line 1\n\
         hint: a line of hints.pem is 64 hexadecimal digits, and then nothing, or a space and any text; line 1 is not, or ends in a carriage return\n",
        4,
    ),
    (
        "--hints check --store . --verdicts /dev/null --at 20250601000000Z --anchor hints_root.der hints_leaf.der",
        "x509check: store fault 71\nhint: . is a folder, and the file of a store is wanted\n",
        6,
    ),
    (
        "--hints check --store hints.pem --verdicts /dev/null --at 20250601000000Z --anchor hints_root.der hints_leaf.der",
        "x509check: store fault 71\nhint: hints.pem is no store, but another file\n",
        6,
    ),
    (
        "--hints find --store none --verdicts /dev/null --at now --anchor a b",
        "x509check: bad time\n\
         hint: --at 'now' is no moment: write YYYYMMDDHHMMSSZ, as 20261201000000Z for the begin of December 2026 in UTC\n",
        5,
    ),
    (
        "--hints --profile wide find --store . --verdicts /dev/null --at 20250601000000Z --anchor hints_root.der hints_leaf.der",
        "x509check: store fault 71\nhint: . is a folder, and the file of a store is wanted\n",
        6,
    ),
    (
        "--hints explain nothing",
        "x509check: bad topic\n\
         hint: explain takes a number or a name, as 'x509check explain 4' or 'x509check explain Truncated'; without a word it explains all\n",
        5,
    ),
    (
        "show missing.der",
        "x509check: cannot read missing.der\n",
        6,
    ),
    (
        "--wait 0 show missing.der",
        "x509check: cannot read missing.der\n",
        6,
    ),
    ("--hints show hints_leaf.der", "", 0),
];

// Whether a run of these words prints this on standard error and ends so.
fn ends_so(rt: &HostRuntime, line: &str, told: &str, status: u8) -> Result<bool, Fail> {
    let words = words_of(rt.alloc(), line)?;
    let (mut out, mut err) = (Output::new(rt.alloc()), Vec::new(rt.alloc()));
    let mut input: &[u8] = &[];
    let words = words.as_slice();
    let ended = start(
        rt,
        AnyFiles,
        rt.alloc(),
        words,
        &mut input,
        &mut out,
        &mut err,
    );
    Ok(ended == status && err.as_slice() == told.as_bytes())
}

#[test]
fn hints_stand_behind_failures(rt: HostRuntime) -> Result<(), Fail> {
    put(&rt, "hints_root.der", ROOT, "")?;
    put(&rt, "hints_leaf.der", LEAF, "")?;
    let pem = "-----BEGIN CERTIFICATE-----\nMAA=\n-----END CERTIFICATE-----\n";
    fs::write(&rt, "hints.pem", pem.as_bytes())?;
    for (line, told, status) in ROWS.iter() {
        assert!(rt; ends_so(&rt, line, told, *status)?, "{line}");
    }
    Ok(())
}
