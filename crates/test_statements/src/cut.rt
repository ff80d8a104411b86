//! Every beginning of a text is cut short, and refused so at its first octet.

use crate::whole::{Text, octets_of};
use asn::{Fault, Rule, check};
use cert::{CertFault, CertRule, Certificate};
use statements_crl::{Crl, ReadingFault, StatementRule};
use statements_ocsp::Response;
use std::alloc::Global;

const CUT: Fault = Fault::Refused(Rule::Truncated, 0);

/// How reading a certificate that is cut short ends.
const CUT_CERTIFICATE: CertFault = CertFault::Refused(CertRule::Der(Rule::Truncated), 0);

/// How reading a statement that is cut short ends.
const CUT_STATEMENT: ReadingFault = ReadingFault::Refused(StatementRule::Der(Rule::Truncated), 0);

fn is_refused(alloc: Global, text: Text, octets: &[u8]) -> bool {
    match text {
        Text::Certificate => Certificate::read(alloc, octets).err() == Some(CUT_CERTIFICATE),
        Text::List => Crl::read(alloc, octets).err() == Some(CUT_STATEMENT),
        Text::Response => Response::read(alloc, octets).err() == Some(CUT_STATEMENT),
    }
}

/// The end of the first beginning that is not refused so.
fn first_taken(alloc: Global, text: Text, octets: &[u8]) -> Option<usize> {
    for end in 0..octets.len() {
        let beginning = &octets[..end];
        if check(beginning) != Err(CUT) || !is_refused(alloc, text, beginning) {
            return Some(end);
        }
    }
    None
}

/// Whether all beginnings are refused so; `None` where there is no memory.
fn are_refused(alloc: Global, text: Text) -> Option<bool> {
    let octets = octets_of(alloc, text)?;
    Some(first_taken(alloc, text, &octets).is_none())
}

#[test]
fn certificates_are_cut(rt: HostRuntime) {
    assert!(rt; are_refused(rt.alloc(), Text::Certificate) == Some(true));
}

#[test]
fn lists_are_cut(rt: HostRuntime) {
    assert!(rt; are_refused(rt.alloc(), Text::List) == Some(true));
}

#[test]
fn responses_are_cut(rt: HostRuntime) {
    assert!(rt; are_refused(rt.alloc(), Text::Response) == Some(true));
}
