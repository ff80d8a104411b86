//! Files of certificates, statements and verdicts.

use crate::walking::words_of;
use cli::execute;
use std::alloc::Global;
use std::fs;
use std::test::Fail;
use vectors::{certificate, revocation_list};
use vectors_ocsp::ocsp_response;

// The octets of what the text asks for: a certificate, a revocation list or a response; or those that its digits are.
fn octets_of(alloc: Global, text: &str) -> Result<Vec<u8>, Fail> {
    let octets = if text.is_empty() || text.starts_with('0') || text.starts_with('3') {
        hex::decode(alloc, text).ok()
    } else if text.starts_with("crl") {
        revocation_list(alloc, text).ok()
    } else if text.starts_with("ocsp") {
        ocsp_response(alloc, text, &[]).ok()
    } else {
        certificate(alloc, text).ok()
    };
    Ok(octets.ok_or("notation")?)
}

// The octets of the values in a row, with `+` between them.
fn joined(alloc: Global, values: &str) -> Result<Vec<u8>, Fail> {
    let mut all = Vec::new(alloc);
    for value in values.split('+') {
        let octets = octets_of(alloc, value.trim())?;
        all.extend_from_slice(octets.as_slice())?;
    }
    Ok(all)
}

/// Writes each file. A line has its name, `=`, and the values in a row that it holds.
pub(crate) fn write_files(rt: &HostRuntime, files: &str) -> Result<(), Fail> {
    for line in files.lines().skip(1) {
        let (name, values) = line.split_once(" =").ok_or("a name")?;
        let octets = joined(rt.alloc(), values)?;
        fs::write(rt, name, octets.as_slice())?;
    }
    Ok(())
}

/// Writes the file of verdicts: the fingerprints that the runs of these lines print.
pub(crate) fn write_verdicts(rt: &HostRuntime, name: &str, lines: &str) -> Result<(), Fail> {
    let mut prints = Vec::new(rt.alloc());
    let mut err = Vec::new(rt.alloc());
    for line in lines.lines().skip(1) {
        let words = words_of(rt.alloc(), line)?;
        let mut input: &[u8] = &[];
        execute(
            rt,
            rt.alloc(),
            words.as_slice(),
            &mut input,
            &mut prints,
            &mut err,
        );
    }
    Ok(fs::write(rt, name, prints.as_slice())?)
}
