//! Values one after the other, at the front of a source.

use crate::source::{Cut, Endless};
use asn::Fault;
use der::check;
use der_stream::{ReadFault, front_laws, path_octets, read_front};
use std::alloc::Global;

/// How many octets sources hand out a call, at most.
const CUTS: &[usize] = &[1, 2, 3, 64];

/// What a source has, how many values are read at most, how many are answered, the place and the number of the fault behind them,
/// and how many octets are not read.
type Row = (&'static [u8], u32, usize, Option<(u64, u8)>, usize);

const ROWS: &[Row] = &[
    (&[], 5, 0, None, 0),
    (&[0x30, 0x00], 0, 0, None, 2),
    (&[0x30, 0x00, 0x05, 0x00], 5, 2, None, 0),
    (&[0x30, 0x00, 0x05, 0x00], 2, 2, None, 0),
    (&[0x30, 0x00, 0x05, 0x00], 1, 1, None, 2),
    (&[0x30, 0x00, 0x30, 0x80, 0x00, 0x00], 5, 1, Some((2, 2)), 2),
    (
        &[0x02, 0x01, 0x05, 0x02, 0x02, 0x00, 0x7F],
        5,
        1,
        Some((3, 6)),
        0,
    ),
    (&[0x02, 0x01, 0x05, 0x30], 5, 1, Some((3, 4)), 0),
    (&[0x30, 0x01], 5, 0, Some((0, 4)), 0),
];

/// What is left behind the values, where the octets begin with them.
fn behind<'a>(octets: &'a [u8], values: &[Vec<u8>]) -> Option<&'a [u8]> {
    let mut rest = octets;
    for value in values {
        if !rest.starts_with(value) {
            return None;
        }
        rest = rest.get(value.len()..)?;
    }
    Some(rest)
}

fn told(stopped: Option<(u64, ReadFault)>) -> Option<(u64, u8)> {
    match stopped {
        None => None,
        Some((place, fault)) => Some((place, fault.number().unwrap_or(254))),
    }
}

fn holds_for(alloc: Global, row: &Row, cut: &mut Cut<'_>) -> bool {
    let (source, most, count, stopped, _) = *row;
    let read = path_octets(alloc, cut, most);
    read.values.len() == count
        && behind(source, &read.values).is_some()
        && told(read.stopped) == stopped
}

#[test]
fn sources_begin_with_values(rt: HostRuntime) {
    for row in ROWS.iter() {
        for most in CUTS.iter() {
            let mut cut = Cut {
                octets: row.0,
                most: *most,
            };
            assert!(rt; holds_for(rt.alloc(), row, &mut cut), "{row:?} {most}");
            assert_eq!(rt; cut.octets.len(), row.4, "{row:?} {most}");
        }
    }
}

/// Without memory the value is refused for which there is none, and none behind it is read.
#[test]
fn a_path_wants_memory_or_answers(rt: HostRuntime) {
    let mut source: &[u8] = &[0x30, 0x00, 0x05, 0x00];
    let read = path_octets(rt.alloc(), &mut source, 5);
    match read.stopped {
        None => assert_eq!(rt; read.values.len(), 2),
        Some((0, fault)) => {
            assert_eq!(rt; fault, ReadFault::Fault(Fault::Memory));
            assert!(rt; read.values.is_empty() && source.len() >= 2);
        }
        Some((2, fault)) => {
            assert_eq!(rt; fault, ReadFault::Fault(Fault::Memory));
            assert_eq!(rt; read.values.len(), 1);
        }
        Some(_) => assert!(rt; false),
    }
}

/// What a source has, and how many octets are read of it if one value is wanted.
const FRONTS: &[(&[u8], usize)] = &[
    (&[], 0),
    (&[0x30], 1),
    (&[0x30, 0x00], 2),
    (&[0x30, 0x00, 0x05, 0x00], 3),
    (&[0x05, 0x00, 0x00], 3),
    (&[0x30, 0x80, 0x00, 0x00], 2),
    (&[0x02, 0x81, 0x7F], 3),
    (&[0x30, 0x84, 0xFF, 0xFF, 0xFF, 0xFF, 0x00], 6),
    (&[0x1F, 0x00, 0x00], 1),
    (&[0x02, 0x02, 0x00, 0x7F, 0x05], 5),
    (&[0x02, 0x02, 0x00], 3),
    (&[0x30, 0x03, 0x02, 0x02, 0x01], 5),
    (&[0x30, 0x03, 0x02, 0x02, 0x01, 0x00, 0x00], 6),
];

/// What is read of a source has the fault that all of it has, and nothing behind that is read.
#[test]
fn a_front_has_the_first_fault(rt: HostRuntime) {
    front_laws();
    for row in FRONTS.iter() {
        for most in CUTS.iter() {
            let mut cut = Cut {
                octets: row.0,
                most: *most,
            };
            let front = read_front(rt.alloc(), &mut cut, 1).unwrap_or(Vec::new(rt.alloc()));
            assert_eq!(rt; front.len(), row.1, "{row:?} {most}");
            assert_eq!(rt;
                cut.octets.len(),
                row.0.len() - row.1.min(row.0.len()),
                "{row:?}"
            );
            assert_eq!(rt; check(&front), check(row.0), "{row:?} {most}");
        }
    }
}

/// An octet that comes again and again, and how many are read of it if one value is wanted, and three.
const ENDLESS: &[(u8, usize, usize)] = &[
    (0x00, 1, 1),
    (0x30, 51, 151),
    (0x02, 5, 13),
    (0xFF, 1, 1),
];

#[test]
fn sources_without_an_end_are_read_no_further(rt: HostRuntime) {
    for row in ENDLESS.iter() {
        for (most, count) in [(1, row.1), (3, row.2)].iter() {
            let mut source = Endless { octet: row.0 };
            let front = read_front(rt.alloc(), &mut source, *most);
            let front = front.unwrap_or(Vec::new(rt.alloc()));
            assert_eq!(rt; front.len(), *count, "{row:?}");
        }
    }
}
