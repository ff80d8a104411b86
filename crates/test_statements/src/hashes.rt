//! Responses by SHA-1 and by SHA-256 (RFC 6960, 4.1.1), and what they say in each profile.

use crate::telling::{Wrong, line_in};
use statements_facts::Profile;
use std::alloc::Global;
use std::fmt::Write;
use vectors_ocsp::ocsp_response;

/// A response, and what it says in the stated profile and in the wide one under `ca(R,R)`: of each single response the serial number and the
/// status, or the number of a fault.
type Row = (&'static str, &'static str, &'static str);

const ROWS: &[Row] = &[
    ("ocsp(R,05 good)", "05 good;", "05 good;"),
    ("ocsp(R,#05 good)", "58", "05 good;"),
    ("ocsp(R,#05 revoked 4)", "58", "05 revoked 4;"),
    ("ocsp(R,#05 unknown)", "58", "05 unknown;"),
    ("ocsp(R,#05 good){bykey R}", "58", "05 good;"),
    (
        "ocsp(R,#05 good,06 revoked 1,#07 unknown)",
        "06 revoked 1;",
        "05 good;06 revoked 1;07 unknown;",
    ),
    (
        "ocsp(R,05 good,#05 revoked 1)",
        "05 good;",
        "05 good;05 revoked 1;",
    ),
    // the name counts by SHA-256, and the key by both
    ("ocsp(R,05 good){named Q}", "05 good;", "05 good;"),
    ("ocsp(R,#05 good){named Q}", "58", "58"),
    ("ocsp(R,05 good){key Q}", "58", "58"),
    ("ocsp(R,#05 good){key Q}", "58", "58"),
    ("ocsp(Q,#05 good){by R}{signed R}", "58", "58"),
    // who signed it counts as ever
    ("ocsp(R,#05 good){signed X}", "57", "57"),
    ("ocsp(R,#05 good){by X}", "57", "57"),
];

/// The line without times, or the number of the fault.
fn said(alloc: Global, profile: Profile, response: &str) -> Option<String> {
    let octets = ocsp_response(alloc, response, &[]).ok()?;
    let mut told = String::new(alloc);
    match line_in(alloc, profile, "ca(R,R)", &octets) {
        Ok(line) => {
            for single in line.split_terminator(';') {
                let until_times = single.find(" 17").unwrap_or(single.len());
                told.push_str(single.split_at(until_times).0).ok()?;
                told.push_str(";").ok()?;
            }
        }
        Err(Wrong::Refused(fault)) => write!(told, "{}", fault.number()).ok()?,
        Err(_) => return None,
    }
    Some(told)
}

fn is_said(alloc: Global, profile: Profile, response: &str, wanted: &str) -> bool {
    match said(alloc, profile, response) {
        Some(line) => line.as_str() == wanted,
        None => false,
    }
}

#[test]
fn hashes_count_by_profile(rt: HostRuntime) {
    let alloc = rt.alloc();
    for (response, stated, wide) in ROWS.iter() {
        assert!(rt;
            is_said(alloc, Profile::Stated, response, stated),
            "{response}"
        );
        assert!(rt;
            is_said(alloc, Profile::Wide, response, wide),
            "{response} wide"
        );
    }
}
