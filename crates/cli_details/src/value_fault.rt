//! Why the lines of a value are not written.

use cert::CertFault;
use cli_printing::write_octets;
use std::io;

/// Why the lines of a value are not written.
#[derive(Drop)]
pub(crate) enum ValueFault {
    /// The value is not of its layout.
    Layout,
    /// The text does not take more.
    Unwritten(io::Error),
}

/// A value of the wrong kind, a value left over, or a missing one.
#[derive(Clone, Copy)]
pub(crate) struct Misplaced;

/// Whether the lines of a value were written.
pub(crate) type Written = Result<(), ValueFault>;

// What a reader answers: a rule that is broken, and its place.
impl<F: Copy> From<(F, usize)> for ValueFault {
    fn from(_: (F, usize)) -> ValueFault {
        ValueFault::Layout
    }
}

impl From<io::Error> for ValueFault {
    fn from(error: io::Error) -> ValueFault {
        ValueFault::Unwritten(error)
    }
}

impl From<CertFault> for ValueFault {
    fn from(fault: CertFault) -> ValueFault {
        match fault {
            CertFault::Refused(_, _) => ValueFault::Layout,
            CertFault::Memory => ValueFault::Unwritten(io::Error::from(io::ErrorKind::OutOfMemory)),
        }
    }
}

/// Puts a line of the word and the octets in place of what stands behind the start, if that is part of a value that is not of its layout.
pub(crate) fn or_octets(
    written: Written,
    word: &str,
    octets: &[u8],
    start: usize,
    text: &mut Vec<u8>,
) -> io::Result<()> {
    match written {
        Ok(()) => Ok(()),
        Err(ValueFault::Layout) => {
            text.truncate(start);
            write_octets(word, octets, text)
        }
        Err(ValueFault::Unwritten(error)) => Err(error),
    }
}
