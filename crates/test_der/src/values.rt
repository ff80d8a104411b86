use crate::source::{Cut, Failing, is_value};
use asn::{Fault, Rule, check};
use der_stream::{ReadFault, read_one, stream_laws};
use std::test::Fail;

/// The longest value, header and contents.
const LONGEST: usize = (1 << 28) + 5;

/// How many octets sources hand out a call, at most.
const CUTS: &[usize] = &[1, 2, 3, 64];

/// What a source has, how many octets a value may have, how many octets are read, and the number of the fault; 0 where a value
/// is answered.
type Row = (&'static [u8], usize, usize, u8);

const ROWS: &[Row] = &[
    (&[0x30, 0x00, 0x05, 0x00], LONGEST, 2, 0),
    (&[0x05, 0x00], LONGEST, 2, 0),
    (&[0x30, 0x00], LONGEST, 2, 0),
    (&[0x1F, 0x05], LONGEST, 1, 1),
    (&[0x30, 0x80], LONGEST, 2, 2),
    (&[0x30, 0xFF, 0x00], LONGEST, 2, 2),
    (&[0x02, 0x81, 0x7F, 0x00], LONGEST, 3, 2),
    (&[0x30, 0x84, 0xFF, 0xFF, 0xFF, 0xFF, 0x00], LONGEST, 6, 3),
    (&[0x02, 0x03, 0x01], LONGEST, 3, 4),
    (&[0x02], LONGEST, 1, 4),
    (&[0x30, 0x82, 0x01], LONGEST, 3, 4),
    (&[0x02, 0x01, 0x05], 3, 3, 0),
    (&[0x02, 0x02, 0x00, 0x80], 3, 2, 10),
    (&[0x05, 0x00], 1, 2, 10),
    (&[0x02, 0x02, 0x00, 0x7F, 0x05], LONGEST, 4, 6),
    (&[0x30, 0x03, 0x02, 0x02, 0x01, 0x05], LONGEST, 5, 4),
    (&[0x04, 0x84, 0x01, 0x00, 0x00, 0x00], LONGEST, 6, 4),
    (&[0x04, 0x84, 0x0F, 0xFF, 0xFF, 0xFF], LONGEST, 6, 4),
    (&[0x04, 0x84, 0x10, 0x00, 0x00, 0x00], LONGEST, 6, 3),
];

/// The number of the fault of an answer; 0 where it is the octets of the source up to that place.
fn answered(rt: &HostRuntime, source: &[u8], limit: usize, cut: &mut Cut<'_>) -> u8 {
    match read_one(rt.alloc(), cut, limit) {
        Ok(Some(octets)) if source.starts_with(&octets) => 0,
        Ok(_) => 255,
        Err(fault) => fault.number().unwrap_or(254),
    }
}

#[test]
fn answers_however_the_source_is_cut(rt: HostRuntime) {
    for (source, limit, read, number) in ROWS.iter() {
        for most in CUTS.iter() {
            let mut cut = Cut {
                octets: source,
                most: *most,
            };
            let answer = answered(&rt, source, *limit, &mut cut);
            assert_eq!(rt; answer, *number, "{source:?} {most}");
            assert_eq!(rt;
                source.len().saturating_sub(cut.octets.len()),
                *read,
                "{source:?} {most}"
            );
        }
    }
    stream_laws();
}

/// Two values, one after the other, and then none.
#[test]
fn reads_one_value_after_the_other(rt: HostRuntime) -> Result<(), Fail> {
    for most in CUTS.iter() {
        let mut cut = Cut {
            octets: &[0x30, 0x00, 0x05, 0x00],
            most: *most,
        };
        let first = read_one(rt.alloc(), &mut cut, LONGEST)?;
        let second = read_one(rt.alloc(), &mut cut, LONGEST)?;
        let third = read_one(rt.alloc(), &mut cut, LONGEST)?;
        assert!(rt; is_value(&first, &[0x30, 0x00]));
        assert!(rt; is_value(&second, &[0x05, 0x00]));
        assert!(rt; third.is_none());
    }
    Ok(())
}

/// A certificate of 100 octets.
const CERTIFICATE: &[u8] =
    b"\x30\x62\x30\x56\xA0\x03\x02\x01\x02\x02\x01\x05\x30\x04\x06\x02\x2A\x03\
\x30\x0C\x31\x0A\x30\x08\x06\x03\x55\x04\x03\x13\x01\x41\
\x30\x1E\x17\x0D250101000000Z\x17\x0D260101000000Z\
\x30\x0C\x31\x0A\x30\x08\x06\x03\x55\x04\x03\x13\x01\x54\
\x30\x0A\x30\x04\x06\x02\x2A\x03\x03\x02\x00\x4B\
\x30\x04\x06\x02\x2A\x03\x03\x02\x00\xEE";

/// An error at a call is answered, and no later one is made.
#[test]
fn answers_errors_of_the_source(rt: HostRuntime) {
    assert_eq!(rt; CERTIFICATE.len(), 100);
    for call in 1..102 {
        let mut source = Failing {
            octets: CERTIFICATE,
            calls: 0,
            fails_at: call,
        };
        match read_one(rt.alloc(), &mut source, LONGEST) {
            Ok(Some(octets)) => {
                assert!(rt; call == 101 && octets.as_slice() == CERTIFICATE, "{call}");
            }
            Ok(None) => assert!(rt; false, "{call}"),
            Err(fault) => assert!(rt; call < 101 && fault == ReadFault::Io, "{call}"),
        }
        // No call is made again, and none behind an error.
        assert_eq!(rt; source.calls, call.min(100));
    }
}

/// Without memory the first octet is read, or the header, and nothing behind it.
#[test]
fn wants_memory_or_answers(rt: HostRuntime) {
    let mut source = CERTIFICATE;
    match read_one(rt.alloc(), &mut source, LONGEST) {
        Ok(Some(octets)) => assert!(rt; octets.as_slice() == CERTIFICATE),
        Ok(None) => assert!(rt; false),
        Err(fault) => {
            assert_eq!(rt; fault, ReadFault::Fault(Fault::Memory));
            assert!(rt; source.len() == 99 || source.len() == 98);
        }
    }
}

/// Without memory a value past the limit is still told as that, and the end as the end: memory is taken for its first octet, and none for
/// its contents.
#[test]
fn the_limit_wants_memory_or_answers(rt: HostRuntime) {
    let mut source: &[u8] = &[0x02, 0x02, 0x00, 0x80];
    match read_one(rt.alloc(), &mut source, 3) {
        Ok(_) => assert!(rt; false),
        Err(ReadFault::Limit) => assert_eq!(rt; source.len(), 2),
        Err(fault) => {
            assert_eq!(rt; fault, ReadFault::Fault(Fault::Memory));
            assert_eq!(rt; source.len(), 3);
        }
    }
    let mut source: &[u8] = &[];
    assert!(rt; read_one(rt.alloc(), &mut source, 3).is_ok());
}

#[test]
fn names_faults(rt: HostRuntime) {
    let refused = ReadFault::Fault(Fault::Refused(Rule::Content, 7));
    assert_eq!(rt; refused.number(), Some(6));
    assert_eq!(rt; refused.place(), Some(7));
    assert!(rt; refused.name() == "Content");
    assert_eq!(rt; ReadFault::Limit.number(), Some(10));
    assert_eq!(rt; ReadFault::Limit.place(), Some(0));
    assert!(rt; ReadFault::Limit.name() == "Limit");
    assert_eq!(rt; ReadFault::Io.number(), None);
    assert_eq!(rt; ReadFault::Io.place(), None);
    assert!(rt; ReadFault::Io.name() == "Io");
}

/// Lengths of four octets, on both sides of the limit.
#[test]
fn bounds_contents(rt: HostRuntime) {
    let rows: [(&[u8], Rule); 3] = [
        (&[0x04, 0x84, 0x01, 0x00, 0x00, 0x00], Rule::Truncated),
        (&[0x04, 0x84, 0x0F, 0xFF, 0xFF, 0xFF], Rule::Truncated),
        (&[0x04, 0x84, 0x10, 0x00, 0x00, 0x00], Rule::TooLong),
    ];
    for (octets, rule) in rows {
        assert_eq!(rt; check(octets), Err(Fault::Refused(rule, 0)));
    }
}
