//! Each octet of a text is put to each of its 255 other values.

use crate::whole::{Text, octets_of};
use cert::{CertFault, Certificate};
use der_tree::{encode, parse_tree};
use path::{Outcome, Reason, validate};
use statements::genuine;
use statements_facts::{Facts, Listed, Single, Status};
use statements_parts::StatementFault;
use std::alloc::Global;
use vectors::{ToyVerifier, certificate};

/// 2025-06-15T00:00:00Z
const MIDDLE: i64 = 1_749_945_600;

/// The contents octets of the serial number that both statements name.
const SERIAL: &[u8] = b"\x05";

/// What the octets are taken for.
enum Taken {
    Refused,
    /// What the whole text is.
    Same,
    Other,
}

/// A certificate is refused, or its signature is.
fn certificate_of(alloc: Global, anchor: &Certificate<'_>, octets: &[u8]) -> Taken {
    let outcome = match Certificate::read(alloc, octets) {
        Ok(read) => validate(alloc, &ToyVerifier, anchor, &[read], MIDDLE, None),
        Err(CertFault::Memory) => return Taken::Other,
        Err(_) => return Taken::Refused,
    };
    match outcome {
        Ok(Outcome::Good) => Taken::Same,
        Ok(Outcome::Bad(1, Reason::Signature)) => Taken::Refused,
        _ => Taken::Other,
    }
}

/// Whether this is what the list says.
fn is_listed(listed: &[Listed<'_>]) -> bool {
    match listed {
        [entry] => entry.serial == SERIAL && entry.reason == 1,
        _ => false,
    }
}

/// SHA-1 of the name R, `30 0C 31 0A 30 08 06 03 55 04 03 13 01 52`.
const NAME_HASH: &[u8] =
    b"\x8b\xf6\x69\xe5\x21\x05\x89\x58\x1d\x15\x72\xea\x6a\xfb\x7a\x1b\xbc\xa5\xe4\x9b";

/// 2025-06-01T00:00:00Z
const FROM: i64 = 1_748_736_000;

/// 2025-07-01T00:00:00Z
const UNTIL: i64 = 1_751_328_000;

/// Whether this is what the response says.
fn is_said(singles: &[Single<'_>]) -> bool {
    match singles {
        [single] => {
            single.name_hash.as_slice() == NAME_HASH
                && single.serial == SERIAL
                && (single.this_update, single.produced_at) == (FROM, FROM)
                && (single.from, single.until) == (FROM, UNTIL)
                && single.status == Status::Good
        }
        _ => false,
    }
}

/// Whether they are the facts of the list, or of the response.
fn are_the_same(facts: &Facts<'_>) -> bool {
    match facts {
        Facts::Crl(list) => {
            list.number.to_octets()[19] == 5
                && (list.from, list.until) == (FROM, UNTIL)
                && is_listed(list.revoked.as_slice())
        }
        Facts::Ocsp(response) => is_said(response.singles.as_slice()),
    }
}

fn statement_of(alloc: Global, issuer: &Certificate<'_>, octets: &[u8]) -> Taken {
    match genuine(alloc, &ToyVerifier, issuer, octets) {
        Ok(facts) if are_the_same(&facts) => Taken::Same,
        Ok(_) | Err(StatementFault::Memory) => Taken::Other,
        Err(_) => Taken::Refused,
    }
}

/// Whether octets that were changed or not are taken for what they may be. A response whose outer algorithm identifier was changed says
/// the same: it is not signed, and the verifier does not look at it.
fn is_right(
    alloc: Global,
    issuer: &Certificate<'_>,
    text: Text,
    octets: &[u8],
    is_changed: bool,
) -> bool {
    let taken = match text {
        Text::Certificate => certificate_of(alloc, issuer, octets),
        Text::List | Text::Response => statement_of(alloc, issuer, octets),
    };
    match taken {
        Taken::Refused => is_changed,
        Taken::Same => !is_changed || matches!(text, Text::Response),
        Taken::Other => false,
    }
}

/// Where the octets are DER, the octets of their tree are these.
fn comes_back(alloc: Global, octets: &[u8]) -> bool {
    match parse_tree(alloc, octets) {
        Ok(tree) => match encode(alloc, &tree) {
            Ok(again) => again.as_slice() == octets,
            Err(_) => false,
        },
        Err(_) => true,
    }
}

/// The first place, and the value there, where this is not so.
fn first_wrong(
    alloc: Global,
    issuer: &Certificate<'_>,
    text: Text,
    octets: &mut [u8],
) -> Option<(usize, u8)> {
    for at in 0..octets.len() {
        let was = octets[at];
        for value in 0..=255 {
            octets[at] = value;
            let is_so = is_right(alloc, issuer, text, octets, value != was);
            if !(is_so && comes_back(alloc, octets)) {
                return Some((at, value));
            }
        }
        octets[at] = was;
    }
    None
}

/// The same of the text; `None` where there is no memory.
fn found_wrong(alloc: Global, text: Text) -> Option<Option<(usize, u8)>> {
    let issuer = certificate(alloc, "ca(R,R)").ok()?;
    let mut octets = octets_of(alloc, text)?;
    let issuer = Certificate::read(alloc, &issuer).ok()?;
    Some(first_wrong(alloc, &issuer, text, &mut octets))
}

#[test]
fn certificates_are_changed(rt: HostRuntime) {
    assert_eq!(rt; found_wrong(rt.alloc(), Text::Certificate), Some(None));
}

#[test]
fn lists_are_changed(rt: HostRuntime) {
    assert_eq!(rt; found_wrong(rt.alloc(), Text::List), Some(None));
}

#[test]
fn responses_are_changed(rt: HostRuntime) {
    assert_eq!(rt; found_wrong(rt.alloc(), Text::Response), Some(None));
}
