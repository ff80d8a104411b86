//! The values inside a value, and walks over layouts of them.

use crate::holds;
use asn::{Fault, Rule, Tlv, member_laws, size_laws, whole};
use std::test::Fail;

/// SEQUENCE { BOOLEAN TRUE, NULL, INTEGER -128 }.
const ROW: [u8; 10] = [0x30, 0x08, 0x01, 0x01, 0xFF, 0x05, 0x00, 0x02, 0x01, 0x80];

/// Whether the value has this tag, this body and this offset.
fn is_value(tlv: Option<Tlv<'_>>, tag: u8, body: &[u8], at: usize) -> bool {
    match tlv {
        Some(tlv) => tlv.tag == tag && tlv.body == body && tlv.at == at,
        None => false,
    }
}

#[test]
fn members_are_walked(rt: HostRuntime) -> Result<(), Fail> {
    let outer = whole(&ROW)?;
    holds(&rt, outer.tag == 0x30, "the identifier");
    holds(&rt, outer.at == 0, "the offset");
    holds(&rt, outer.whole == &ROW[..], "the whole");
    let mut members = outer.inside().ok_or("constructed")?;
    holds(&rt, members.at() == 2, "the offset of the members");
    holds(&rt, is_value(members.next(), 0x01, &[0xFF], 2), "TRUE");
    holds(&rt, is_value(members.next(), 0x05, &[], 5), "NULL");
    holds(&rt, !members.end(), "more");
    let last = members.next().ok_or("a third member")?;
    holds(&rt, is_value(Some(last), 0x02, &[0x80], 7), "-128");
    holds(&rt, last.whole == &ROW[7..], "the octets of -128");
    holds(&rt, last.inside().is_none(), "nothing inside");
    holds(&rt, is_value(Some(last.alone()), 0x02, &[0x80], 0), "alone");
    holds(&rt, members.end(), "the end");
    holds(&rt, members.next().is_none(), "no more");
    holds(&rt, members.at() == 10, "the offset of the end");
    member_laws();
    size_laws();
    Ok(())
}

#[test]
fn layouts_are_walked(rt: HostRuntime) -> Result<(), Fail> {
    let outer = whole(&ROW)?;
    holds(&rt, outer.is_a(0x31, 'x') == Err(('x', 0)), "no SET");
    outer.is_a(0x30, 'x').ok().ok_or("a SEQUENCE")?;
    let mut members = match outer.tag {
        0x30 => outer.members(),
        _ => return Err(Fail::from("a SEQUENCE")),
    };
    holds(&rt, members.begins(0x01), "begins with a BOOLEAN");
    holds(&rt, members.optional(0x05).is_none(), "no NULL yet");
    holds(
        &rt,
        members.required(0x05, 'y').is_err(),
        "no NULL for the BOOLEAN",
    );
    holds(
        &rt,
        is_value(members.optional(0x05), 0x05, &[], 5),
        "the NULL",
    );
    holds(&rt, members.ended('z') == Err(('z', 7)), "not ended");
    holds(&rt, members.some('z').is_ok(), "some left");
    holds(
        &rt,
        is_value(members.next_or('u').ok(), 0x02, &[0x80], 7),
        "-128",
    );
    holds(
        &rt,
        members.next_or('u').err() == Some(('u', 10)),
        "no next",
    );
    holds(&rt, members.any().is_none(), "none of any kind");
    holds(&rt, members.ended('z').is_ok(), "ended");
    holds(&rt, members.some('z') == Err(('z', 10)), "none left");
    holds(
        &rt,
        matches!(members.required(0x02, 'w'), Err(('w', 10))),
        "a missing INTEGER",
    );
    Ok(())
}

/// SEQUENCE { UTCTime, GeneralizedTime, NULL }; the seconds are those that `date -u` gives.
#[test]
fn times_are_walked(rt: HostRuntime) -> Result<(), Fail> {
    let octets = b"\x30\x22\x17\x0D250101000000Z\x18\x0F20260101000000Z\x05\x00";
    let mut members = whole(octets)?.inside().ok_or("constructed")?;
    let mut again = members;
    holds(
        &rt,
        members.time('x', 'y') == Ok(1_735_689_600),
        "a UTCTime",
    );
    holds(
        &rt,
        members.time('x', 'y') == Ok(1_767_225_600),
        "a GeneralizedTime",
    );
    holds(&rt, members.time('x', 'y') == Err(('x', 34)), "a NULL");
    holds(&rt, members.time('x', 'y') == Err(('x', 36)), "nothing");
    let first = again.choice(&[0x02, 0x17], 'z').ok().ok_or("a time")?;
    holds(
        &rt,
        first.seconds('z') == Ok(1_735_689_600),
        "the seconds of the first",
    );
    holds(
        &rt,
        again.choice(&[0x02, 0x17], 'z').err() == Some(('z', 17)),
        "no other choice",
    );
    let last = again.next().ok_or("a NULL")?;
    holds(&rt, last.seconds('z') == Err(('z', 34)), "no time");
    holds(
        &rt,
        again.choice(&[0x05], 'z').err() == Some(('z', 36)),
        "nothing to choose",
    );
    Ok(())
}

/// SEQUENCE { BOOLEAN TRUE, BOOLEAN FALSE, NULL }.
#[test]
fn flags_are_walked(rt: HostRuntime) -> Result<(), Fail> {
    let octets = [0x30, 0x08, 0x01, 0x01, 0xFF, 0x01, 0x01, 0x00, 0x05, 0x00];
    let mut members = whole(&octets)?.inside().ok_or("constructed")?;
    holds(&rt, members.default_false('x') == Ok(true), "TRUE");
    holds(&rt, members.default_false('x') == Err(('x', 5)), "FALSE");
    holds(
        &rt,
        members.default_false('x') == Ok(false),
        "a NULL behind",
    );
    holds(&rt, is_value(members.next(), 0x05, &[], 8), "the NULL");
    holds(
        &rt,
        members.default_false('x') == Ok(false),
        "nothing behind",
    );
    Ok(())
}

#[test]
fn contents_are_read(rt: HostRuntime) -> Result<(), Fail> {
    let octets = [
        0x30, 0x09, 0x04, 0x02, 0x30, 0x00, 0x04, 0x03, 0x02, 0x02, 0x00,
    ];
    let mut members = whole(&octets)?.inside().ok_or("constructed")?;
    let good = members.next().ok_or("a first member")?.nested();
    holds(&rt, is_value(good.ok(), 0x30, &[], 4), "a SEQUENCE");
    let cut = members.next().ok_or("a second member")?.nested();
    holds(
        &rt,
        cut.err() == Some((Rule::Truncated, 8)),
        "an INTEGER that is cut",
    );
    let refused = whole(&octets[..10]).err();
    holds(
        &rt,
        refused == Some(Fault::Refused(Rule::Truncated, 0)),
        "a text that is cut",
    );
    Ok(())
}
