//! Responses are read with their fields.

use crate::octets_of;
use crate::responses::accepted::ACCEPTED;
use crate::responses::of_openssl::OF_OPENSSL;
use asn::Tlv;
use statements_ocsp::{
    CertStatus, Certs, ReadingFault, ResponderId, Response, SingleResponse, is_response,
};
use std::alloc::Global;
use std::test::Fail;

fn is_responder(responder: ResponderId<'_>, kind: &str, octets: &[u8]) -> bool {
    match responder {
        ResponderId::ByName(name) => kind == "name" && name.raw() == octets,
        ResponderId::ByKey(hash) => kind == "key" && hash == octets,
    }
}

/// `good`, `unknown`, or `revoked:` and the reason.
fn is_status(status: CertStatus, word: &str) -> bool {
    match status {
        CertStatus::Good => word == "good",
        CertStatus::Unknown => word == "unknown",
        CertStatus::Revoked(reason) => {
            let number = word.strip_prefix("revoked:").unwrap_or("");
            number.parse() == Ok(reason)
        }
    }
}

/// Seconds, or `-`.
fn is_moment(moment: Option<i64>, word: &str) -> bool {
    match moment {
        Some(seconds) => word.parse() == Ok(seconds),
        None => word == "-",
    }
}

/// Whether the single response is what the words say, with commas between.
fn is_single(alloc: Global, single: SingleResponse<'_>, line: &str) -> Result<bool, Fail> {
    let mut words = line.split(',');
    let hash_algorithm = octets_of(alloc, words.next().unwrap_or(""))?;
    let name_hash = octets_of(alloc, words.next().unwrap_or(""))?;
    let key_hash = octets_of(alloc, words.next().unwrap_or(""))?;
    let serial = octets_of(alloc, words.next().unwrap_or(""))?;
    let is_id = single.id.hash_algorithm == hash_algorithm.as_slice()
        && single.id.issuer_name_hash == name_hash.as_slice()
        && single.id.issuer_key_hash == key_hash.as_slice()
        && single.id.serial == serial.as_slice();
    let is_status = is_status(single.status, words.next().unwrap_or(""));
    let is_begun = is_moment(Some(single.this_update), words.next().unwrap_or(""));
    let is_ended = is_moment(single.next_update, words.next().unwrap_or(""));
    Ok(is_id && is_status && is_begun && is_ended)
}

/// Whether these are the values, with commas between; `-` where there are none.
fn are_certs(alloc: Global, certs: Certs<'_>, list: &str) -> Result<bool, Fail> {
    let mut left = certs;
    if list == "-" {
        return Ok(left.next().is_none());
    }
    for digits in list.split(',') {
        let value = octets_of(alloc, digits)?;
        if left.next().map(|value| value.whole) != Some(value.as_slice()) {
            return Ok(false);
        }
    }
    Ok(left.next().is_none())
}

/// Whether the octets are DER, and meant as a response.
fn is_meant_as_response(octets: &[u8]) -> bool {
    match Tlv::outermost(octets) {
        Ok(value) => is_response(value),
        Err(_) => false,
    }
}

/// Whether the octets in the line are read as the response that its words say.
fn is_read(alloc: Global, line: &str) -> Result<bool, Fail> {
    let mut words = line.split(' ');
    let kind = words.next().unwrap_or("");
    let responder = octets_of(alloc, words.next().unwrap_or(""))?;
    let produced_at = words.next().unwrap_or("");
    let begin: usize = words.next().unwrap_or("").parse().map_err(|_| "offset")?;
    let end: usize = words.next().unwrap_or("").parse().map_err(|_| "offset")?;
    let algorithm = octets_of(alloc, words.next().unwrap_or(""))?;
    let signature = octets_of(alloc, words.next().unwrap_or(""))?;
    let certs = words.next().unwrap_or("");
    let octets = octets_of(alloc, words.next().unwrap_or(""))?;
    let response = Response::read(alloc, &octets).map_err(|_| "refused")?;
    let mut are_fields = is_responder(response.responder, kind, &responder)
        && is_moment(Some(response.produced_at), produced_at)
        && octets.get(begin..end) == Some(response.tbs.whole)
        && response.algorithm.value.whole == algorithm.as_slice()
        && response.signature.octets() == signature.as_slice()
        && is_meant_as_response(&octets);
    let mut singles = response.responses;
    for word in words {
        are_fields = match singles.next() {
            Some(single) => are_fields && is_single(alloc, single, word)?,
            None => false,
        };
    }
    Ok(are_fields && singles.next().is_none() && are_certs(alloc, response.certs, certs)?)
}

#[test]
fn reads_the_fields(rt: HostRuntime) -> Result<(), Fail> {
    for line in ACCEPTED.lines() {
        let is_as_said = is_read(rt.alloc(), line)?;
        assert!(rt; is_as_said, "{line}");
    }
    Ok(())
}

/// Whether the single response is equal to those that another line spells in the same word, and to no others.
fn is_equal_to_its_like(
    alloc: Global,
    single: SingleResponse<'_>,
    word: &str,
    line: &str,
) -> Result<bool, Fail> {
    let octets = octets_of(alloc, line.split(' ').nth(8).unwrap_or(""))?;
    let response = Response::read(alloc, &octets).map_err(|_| "refused")?;
    let mut others = response.responses;
    let mut is_so = true;
    for other_word in line.split(' ').skip(9) {
        is_so = match others.next() {
            Some(other) => is_so && (single == other) == (word == other_word),
            None => false,
        };
    }
    Ok(is_so)
}

/// The same of each single response of a line.
fn are_equal_to_their_like(alloc: Global, line: &str, other_line: &str) -> Result<bool, Fail> {
    let octets = octets_of(alloc, line.split(' ').nth(8).unwrap_or(""))?;
    let response = Response::read(alloc, &octets).map_err(|_| "refused")?;
    let mut singles = response.responses;
    let mut is_so = true;
    for word in line.split(' ').skip(9) {
        is_so = match singles.next() {
            Some(single) => is_so && is_equal_to_its_like(alloc, single, word, other_line)?,
            None => false,
        };
    }
    Ok(is_so)
}

#[test]
fn single_responses_are_equal_if_all_fields_are(rt: HostRuntime) -> Result<(), Fail> {
    for line in ACCEPTED.lines() {
        for other_line in ACCEPTED.lines() {
            let is_so = are_equal_to_their_like(rt.alloc(), line, other_line)?;
            assert!(rt; is_so, "{line} {other_line}");
        }
    }
    Ok(())
}

/// Whether none of the values in certs of the response in the line is taken for a certificate, and none is left.
fn are_passed_over(alloc: Global, line: &str) -> Result<bool, Fail> {
    let octets = octets_of(alloc, line.split(' ').nth(8).unwrap_or(""))?;
    let response = Response::read(alloc, &octets).map_err(|_| "refused")?;
    let mut certs = response.certs;
    match certs.next_certificate(alloc) {
        Ok(found) => Ok(found.is_none() && certs.next().is_none()),
        Err(_) => Ok(false),
    }
}

#[test]
fn values_that_are_no_certificates_are_passed_over(rt: HostRuntime) -> Result<(), Fail> {
    for line in ACCEPTED.lines() {
        let are_passed = are_passed_over(rt.alloc(), line)?;
        assert!(rt; are_passed, "{line}");
    }
    Ok(())
}

#[test]
fn reads_what_openssl_wrote(rt: HostRuntime) -> Result<(), Fail> {
    for line in OF_OPENSSL.lines() {
        let is_as_said = is_read(rt.alloc(), line)?;
        assert!(rt; is_as_said, "{line}");
    }
    Ok(())
}

/// Octets, and whether they are meant as a response.
const KINDS: &[(&str, bool)] = &[
    ("30030A0100", true),
    ("30050A01000500", true),
    ("A0030A0101", true),
    ("3000", false),
    ("3003020100", false),
    ("30053003020101", false),
    ("300505000A0100", false),
    ("04030A0100", false),
    ("0A0100", false),
    ("30030A010000", false),
    ("30040A0100", false),
    ("-", false),
];

#[test]
fn tells_the_kind(rt: HostRuntime) -> Result<(), Fail> {
    for (digits, is_meant) in KINDS.iter() {
        let octets = octets_of(rt.alloc(), digits)?;
        assert!(rt; is_meant_as_response(&octets) == *is_meant, "{digits}");
    }
    Ok(())
}

/// A response with more extensions than stand on the stack is read, or there is no memory for their types.
#[test]
fn wants_memory_or_answers(rt: HostRuntime) {
    let line = ACCEPTED.lines().nth(14).unwrap_or("");
    if let Ok(octets) = hex::decode(rt.alloc(), line.split(' ').nth(8).unwrap_or("")) {
        match Response::read(rt.alloc(), &octets) {
            Ok(response) => assert!(rt; response.produced_at == 1748736000),
            Err(fault) => assert!(rt; fault == ReadingFault::Memory),
        }
    }
}
