//! Responses are refused with the first fault and its place.

use crate::octets_of;
use crate::responses::refused::REFUSED;
use statements_ocsp::{MOST_SINGLES, ReadingFault, Response, StatementRule};
use std::alloc::Global;
use std::test::Fail;

fn is_refused(
    read: Result<Response<'_>, ReadingFault>,
    number: u8,
    name: &str,
    place: usize,
) -> bool {
    match read {
        Err(ReadingFault::Refused(rule, at)) => {
            rule.number() == number && at == place && rule.name() == name
        }
        _ => false,
    }
}

#[test]
fn refuses_with_the_first_fault(rt: HostRuntime) -> Result<(), Fail> {
    for line in REFUSED.lines() {
        let mut words = line.split(' ');
        let number: u8 = words.next().unwrap_or("").parse().map_err(|_| "number")?;
        let name = words.next().unwrap_or("");
        let place: usize = words.next().unwrap_or("").parse().map_err(|_| "place")?;
        let octets = octets_of(rt.alloc(), words.next().unwrap_or(""))?;
        let read = Response::read(rt.alloc(), &octets);
        assert!(rt; is_refused(read, number, name, place), "{line}");
    }
    Ok(())
}

/// Responses that are not successful, and their codes. Nothing behind the code is looked at.
const UNSUCCESSFUL: &[(&str, u8)] = &[
    ("30030A0103", 3),
    ("30030A0101", 1),
    ("30030A0106", 6),
    ("30030A01FF", 255),
    ("30050A01020500", 2),
    ("30050A0105A000", 5),
];

#[test]
fn tells_the_code(rt: HostRuntime) -> Result<(), Fail> {
    for (digits, code) in UNSUCCESSFUL.iter() {
        let octets = octets_of(rt.alloc(), digits)?;
        let fault = Response::read(rt.alloc(), &octets).err();
        let is_code = fault == Some(ReadingFault::Refused(StatementRule::NotSuccessful(*code), 2));
        assert!(rt; is_code, "{digits}");
        let read = Response::read(rt.alloc(), &octets);
        assert!(rt; is_refused(read, 55, "NotSuccessful", 2), "{digits}");
    }
    Ok(())
}

/// Each beginning of a response is cut short.
#[test]
fn refuses_beginnings(rt: HostRuntime) -> Result<(), Fail> {
    let octets = octets_of(rt.alloc(), NOTHING_SAID)?;
    for end in 0..octets.len() {
        let read = Response::read(rt.alloc(), &octets[..end]);
        assert!(rt; is_refused(read, 41, "Der", 0), "{end}");
    }
    Ok(())
}

/// A response without single responses.
const NOTHING_SAID: &str = "\
    30450a0100a040303e06092b06010505073001010431302f3023a10e300c310a30080603550403130152180f32303235303630313030303030305a3000300406022a03030200ee";

/// The single response that is repeated, and what stands behind the list of them.
const SINGLE: &str = "3021300c300306012a040004000201058000180f32303235303630313030303030305a";

const BEHIND: &str = "300406022a03030200ee";

/// The octets before 256 single responses, another one behind them, and the number of the fault, which is at it.
const TOO_MANY: &[(&str, &str, u8, &str)] = &[
    (
        "308223740a0100a082236d3082236906092b06010505073001010482235a3082235630822348a10e300c310a30080603550403130152180f32303235303630313030303030305a30822323",
        "3021300c300306012a040004000201058000180f32303235303630313030303030305a",
        59,
        "TooManySingles",
    ),
    (
        "308223530a0100a082234c3082234806092b0601050507300101048223393082233530822327a10e300c310a30080603550403130152180f32303235303630313030303030305a30822302",
        "3000",
        59,
        "TooManySingles",
    ),
    (
        "308223530a0100a082234c3082234806092b0601050507300101048223393082233530822327a10e300c310a30080603550403130152180f32303235303630313030303030305a30822302",
        "3100",
        42,
        "Layout",
    ),
];

/// A response with 256 single responses and one more value behind them.
fn with_many(alloc: Global, before: &str, last: &str) -> Result<Vec<u8>, Fail> {
    let mut octets = octets_of(alloc, before)?;
    let single = octets_of(alloc, SINGLE)?;
    for _ in 0..MOST_SINGLES {
        octets.extend_from_slice(&single)?;
    }
    octets.extend_from_slice(&octets_of(alloc, last)?)?;
    octets.extend_from_slice(&octets_of(alloc, BEHIND)?)?;
    Ok(octets)
}

#[test]
fn refuses_the_single_response_past_the_limit(rt: HostRuntime) -> Result<(), Fail> {
    for (before, last, number, name) in TOO_MANY.iter() {
        let octets = with_many(rt.alloc(), before, last)?;
        let read = Response::read(rt.alloc(), &octets);
        assert!(rt; is_refused(read, *number, name, 9035), "{last}");
    }
    Ok(())
}

/// 256 single responses are read.
#[test]
fn reads_as_many_as_are_served(rt: HostRuntime) -> Result<(), Fail> {
    let before = "\
        308223510a0100a082234a3082234606092b0601050507300101048223373082233330822325a10e300c310a30080603550403130152180f32303235303630313030303030305a30822300";
    let octets = with_many(rt.alloc(), before, "-")?;
    let response = Response::read(rt.alloc(), &octets).map_err(|_| "refused")?;
    let mut singles = response.responses;
    for _ in 0..MOST_SINGLES {
        let Some(single) = singles.next() else {
            return Err("too few".into());
        };
        assert!(rt; single.id.serial == [5].as_slice());
    }
    assert!(rt; singles.next().is_none());
    Ok(())
}
