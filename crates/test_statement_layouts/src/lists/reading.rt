//! Lists are read with their fields, or refused with the first fault and its place.

use crate::lists::accepted::ACCEPTED;
use crate::lists::refused::REFUSED;
use crate::octets_of;
use cli_printing::crl_to;
use statements_crl::{Crl, ReadingFault, Scope};
use std::alloc::Global;
use std::test::Fail;

/// A list of issuer A, number 5 and one entry, for serial number 5 and reason 1.
const LIST: &str = "\
    3075306902010130\
    0406022A03300C310A30080603550403130141\
    170D3235303630313030303030305A170D3235303730313030303030305A\
    30223020020105170D3235303532303030303030305A300C300A0603551D1504030A0101\
    A00E300C300A0603551D140403020105\
    300406022A03030200EE";

#[test]
fn reads_the_fields(rt: HostRuntime) -> Result<(), Fail> {
    let octets = octets_of(rt.alloc(), LIST)?;
    let list = Crl::read(rt.alloc(), &octets).map_err(|_| "refused")?;
    assert!(rt; octets.get(13..27) == Some(list.issuer.raw()));
    assert!(rt; list.number.contents == [5].as_slice() && list.scope == Scope::All);
    assert!(rt; list.this_update == 1748736000 && list.next_update == 1751328000);
    assert!(rt; octets.get(2..109) == Some(list.tbs.whole));
    assert!(rt; octets.get(7..13) == Some(list.algorithm.value.whole));
    assert!(rt; list.signature.octets() == [0xEE].as_slice());
    let mut entries = list.revoked;
    let Some(entry) = entries.next() else {
        return Err("no entry".into());
    };
    assert!(rt; entry.serial == [5].as_slice() && entry.reason == 1);
    assert!(rt; entry.revocation_date == 1747699200 && entries.next().is_none());
    assert!(rt; list.lists(&[5]) == Some(1) && list.lists(&[6]).is_none());
    Ok(())
}

/// What the list says.
const LINES: &str = "\
crl
issuer /2.5.4.3=A
number 05
from 1748736000
until 1751328000
revoked 05 1
";

fn prints_as(alloc: Global, digits: &str, lines: &str) -> Result<bool, Fail> {
    let octets = octets_of(alloc, digits)?;
    let list = Crl::read(alloc, &octets).map_err(|_| "refused")?;
    let mut text = Vec::new(alloc);
    crl_to(&list, &mut text)?;
    Ok(text.as_slice() == lines.as_bytes())
}

#[test]
fn prints_the_lines(rt: HostRuntime) -> Result<(), Fail> {
    let is_printed = prints_as(rt.alloc(), LIST, LINES)?;
    assert!(rt; is_printed);
    Ok(())
}

/// A list of user certificates has a line for that.
#[test]
fn prints_the_scope(rt: HostRuntime) -> Result<(), Fail> {
    let Some(line) = ACCEPTED.lines().nth(3) else {
        return Err("no line".into());
    };
    let lines =
        "crl\nissuer /2.5.4.3=A\nnumber 05\nscope user\nfrom 1748736000\nuntil 1751328000\n";
    let is_printed = prints_as(rt.alloc(), line.split(' ').nth(2).unwrap_or(""), lines)?;
    assert!(rt; is_printed);
    Ok(())
}

/// Octets of the list above that are put to another value, with the number of the fault, its name and its place.
const CHANGES: &[(usize, u8, u8, &str, usize)] = &[
    (92, 0x08, 52, "RemoveInComplete", 81),
    (92, 0x07, 51, "BadReason", 81),
    (103, 0x1B, 47, "Delta", 97),
    (6, 0x00, 43, "NotV2", 4),
];

fn is_refused(read: Result<Crl<'_>, ReadingFault>, number: u8, name: &str, place: usize) -> bool {
    match read {
        Err(ReadingFault::Refused(rule, at)) => {
            rule.number() == number && at == place && rule.name() == name
        }
        _ => false,
    }
}

#[test]
fn refuses_changed_octets(rt: HostRuntime) -> Result<(), Fail> {
    for (at, octet, number, name, place) in CHANGES {
        let mut octets = octets_of(rt.alloc(), LIST)?;
        let Some(changed) = octets.get_mut(*at) else {
            return Err("a short list".into());
        };
        *changed = *octet;
        let read = Crl::read(rt.alloc(), &octets);
        assert!(rt; is_refused(read, *number, name, *place), "{name}");
    }
    Ok(())
}

/// Each beginning of the list is cut short.
#[test]
fn refuses_beginnings(rt: HostRuntime) -> Result<(), Fail> {
    let octets = octets_of(rt.alloc(), LIST)?;
    for end in 0..octets.len() {
        let read = Crl::read(rt.alloc(), &octets[..end]);
        assert!(rt; is_refused(read, 41, "Der", 0), "{end}");
    }
    Ok(())
}

#[test]
fn refuses_with_the_first_fault(rt: HostRuntime) -> Result<(), Fail> {
    for line in REFUSED.lines() {
        let mut words = line.split(' ');
        let number: u8 = words.next().unwrap_or("").parse().map_err(|_| "number")?;
        let name = words.next().unwrap_or("");
        let place: usize = words.next().unwrap_or("").parse().map_err(|_| "place")?;
        let octets = octets_of(rt.alloc(), words.next().unwrap_or(""))?;
        let read = Crl::read(rt.alloc(), &octets);
        assert!(rt; is_refused(read, number, name, place), "{line}");
    }
    Ok(())
}

fn scope_named(word: &str) -> Scope {
    match word {
        "user" => Scope::User,
        "ca" => Scope::Ca,
        _ => Scope::All,
    }
}

#[test]
fn reads_numbers_scopes_and_entries(rt: HostRuntime) -> Result<(), Fail> {
    for line in ACCEPTED.lines() {
        let mut words = line.split(' ');
        let number = octets_of(rt.alloc(), words.next().unwrap_or(""))?;
        let scope = scope_named(words.next().unwrap_or(""));
        let octets = octets_of(rt.alloc(), words.next().unwrap_or(""))?;
        let list = Crl::read(rt.alloc(), &octets).map_err(|_| "refused")?;
        assert!(rt;
            list.number.contents == number.as_slice() && list.scope == scope,
            "{line}"
        );
        let mut entries = list.revoked;
        while let Some(digits) = words.next() {
            let serial = octets_of(rt.alloc(), digits)?;
            let reason: u8 = words.next().unwrap_or("").parse().map_err(|_| "reason")?;
            let is_next = match entries.next() {
                Some(entry) => entry.serial == serial.as_slice() && entry.reason == reason,
                None => false,
            };
            assert!(rt; is_next, "{line}");
        }
        assert!(rt; entries.next().is_none(), "{line}");
    }
    Ok(())
}

/// The first of two reasons counts.
#[test]
fn looks_up_the_first_reason(rt: HostRuntime) -> Result<(), Fail> {
    let Some(line) = ACCEPTED.lines().nth(2) else {
        return Err("no line".into());
    };
    let octets = octets_of(rt.alloc(), line.split(' ').nth(2).unwrap_or(""))?;
    let list = Crl::read(rt.alloc(), &octets).map_err(|_| "refused")?;
    assert!(rt; list.lists(&[5]) == Some(1) && list.lists(&[6]) == Some(0));
    assert!(rt; list.lists(&[7]).is_none() && list.lists(&[]).is_none());
    Ok(())
}

#[test]
fn wants_memory_or_answers(rt: HostRuntime) {
    if let Ok(octets) = hex::decode(rt.alloc(), LIST) {
        match Crl::read(rt.alloc(), &octets) {
            Ok(list) => assert!(rt; list.lists(&[5]) == Some(1)),
            Err(fault) => assert!(rt; fault == ReadingFault::Memory),
        }
    }
}
