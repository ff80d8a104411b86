//! Values read one after the other.

ghost use Rattle.der_stream.specs.Sequence.{NoneIsPast, ReadsAtMost};

use crate::{ReadFault, read_one};
use der::Fault;
use std::alloc::Global;
use std::io::Read;

/// The most octets that a value can have: a header of 6, and contents of 2^28 - 1.
const LONGEST: usize = 268_435_461;

/// The values that were read, and why no more were.
#[derive(Drop)]
pub struct PathOctets {
    /// The values with which the source begins, in order.
    pub values: Vec<Vec<u8>>,
    /// `None` if the source ended behind the last value, or as many were read as were asked for; else the place in the source where the
    /// refused value starts, and its fault.
    pub stopped: Option<(u64, ReadFault)>,
}

/// Reads at most `most` values from the source, until it ends. Nothing is read behind the last of them. If there is no room for the list
/// of them, the value that was read is refused with lack of memory. No value is past the limit, since none can have more octets; of a
/// source that does not report its remaining length nothing is promised about that.
pub fn path_octets<R: Read>(alloc: Global, source: &mut R, most: u32) -> PathOctets
    ensures values { ReadsAtMost most R.remaining source.old source.new result }
    ensures longest { NoneIsPast (R.remaining source.old) result.stopped }
{
    let mut values = Vec::new(alloc);
    let mut place: u64 = 0;
    let mut read: u32 = 0;
    while read < most {
        let octets = match read_one(alloc, source, LONGEST) {
            Ok(Some(octets)) => octets,
            Ok(None) => {
                return PathOctets {
                    values,
                    stopped: None,
                };
            }
            Err(fault) => {
                return PathOctets {
                    values,
                    stopped: Some((place, fault)),
                };
            }
        };
        let count = octets.len() as u64;
        if values.push(octets).is_err() {
            return PathOctets {
                values,
                stopped: Some((place, ReadFault::Fault(Fault::Memory))),
            };
        }
        place += count;
        read += 1;
    }
    PathOctets {
        values,
        stopped: None,
    }
}
