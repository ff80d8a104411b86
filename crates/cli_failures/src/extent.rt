//! How far a file is read.

use der_stream::{Fault, ReadFault, read_front};
use std::alloc::Global;
use std::io::Read;

/// How far a file is read. What lies behind changes nothing that can be said of what it is to hold, so that a file without an end is no
/// harm.
#[derive(Clone, Copy, Debug, PartialEq, Eq)]
pub enum Extent {
    /// One DER value, and the octet behind it.
    Value,
    /// As many DER values, one behind the other, and the octet behind them.
    Values(u32),
    /// Lines that begin with a fingerprint, and what there is of the first other one.
    Lines,
}

const CHUNK: usize = 4096;

// The digits of a fingerprint, with which a line begins; if anything follows, it begins with a space.
const DIGITS: usize = 64;

// Whether the octet may stand at that place of a line.
fn may_stand(octet: u8, place: usize) -> bool {
    if place < DIGITS {
        octet.is_ascii_hexdigit()
    } else {
        octet == b' '
    }
}

// Lines, read as long as they may begin with a fingerprint.
fn read_lines<R: Read>(alloc: Global, source: &mut R) -> Result<Vec<u8>, ReadFault> {
    let mut octets = Vec::new(alloc);
    let (mut place, mut goes_on) = (0, true);
    for _ in 0..u64::MAX {
        let mut chunk = [0u8; CHUNK];
        let count = source.read(&mut chunk).map_err(|_| ReadFault::Io)?;
        for octet in &chunk[..count] {
            if octets.push(*octet).is_err() {
                return Err(ReadFault::Fault(Fault::Memory));
            }
            if *octet == b'\n' {
                place = 0;
            } else if place <= DIGITS {
                goes_on = goes_on && may_stand(*octet, place);
                place += 1;
            }
        }
        if count == 0 || !goes_on {
            return Ok(octets);
        }
    }
    Ok(octets)
}

/// The octets of the source, as far as that.
pub(crate) fn read_extent<R: Read>(
    alloc: Global,
    source: &mut R,
    extent: Extent,
) -> Result<Vec<u8>, ReadFault> {
    match extent {
        Extent::Value => read_front(alloc, source, 1),
        Extent::Values(most) => read_front(alloc, source, most),
        Extent::Lines => read_lines(alloc, source),
    }
}
