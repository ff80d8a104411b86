//! Lists with the extension of a row.

use std::alloc::{AllocError, AllocFailed, Global};

/// Why a row has no answer.
#[derive(Clone, Copy, Debug, PartialEq, Eq)]
pub enum RowFault {
    Memory,
    /// Octets that are no hexadecimal digits or no list, or a fault of another rule or place.
    Other,
}

impl From<AllocError> for RowFault {
    fn from(_: AllocError) -> RowFault {
        RowFault::Memory
    }
}

impl<T: Drop> From<AllocFailed<T>> for RowFault {
    fn from(_: AllocFailed<T>) -> RowFault {
        RowFault::Memory
    }
}

/// A value: its identifier, its length, and its contents, of fewer than 256 octets.
fn value(alloc: Global, tag: u8, contents: &[u8]) -> Result<Vec<u8>, RowFault> {
    let mut octets = Vec::new(alloc);
    octets.push(tag)?;
    let length = u8::try_from(contents.len()).map_err(|_| RowFault::Other)?;
    if length > 127 {
        octets.push(0x81)?;
    }
    octets.push(length)?;
    octets.extend_from_slice(contents)?;
    Ok(octets)
}

/// The values behind one another.
fn joined(alloc: Global, values: &[&[u8]]) -> Result<Vec<u8>, RowFault> {
    let mut octets = Vec::new(alloc);
    for value in values {
        octets.extend_from_slice(value)?;
    }
    Ok(octets)
}

/// issuingDistributionPoint, 2.5.29.28, critical
const TYPE: &[u8] = b"\x06\x03\x55\x1D\x1C\x01\x01\xFF";

/// An issuingDistributionPoint whose OCTET STRING has these contents.
pub fn extension(alloc: Global, contents: &[u8]) -> Result<Vec<u8>, RowFault> {
    let octet_string = value(alloc, 0x04, contents)?;
    value(alloc, 0x30, &joined(alloc, &[TYPE, &octet_string])?)
}

/// What stands in the signed part before the extensions: version 2, and no more than there has to be.
const PLAIN: &[u8] =
    b"\x02\x01\x01\x30\x04\x06\x02\x2A\x03\x30\x0C1\x0A0\x08\x06\x03\x55\x04\x03\x13\x01A\x17\x0D250601000000Z\x17\x0D250701000000Z";

/// cRLNumber 5
const NUMBER: &[u8] = b"\x30\x0A\x06\x03\x55\x1D\x14\x04\x03\x02\x01\x05";

/// The signature algorithm and the signature.
pub const SIGNATURE: &[u8] = &[0x30, 0x04, 0x06, 0x02, 0x2A, 0x03, 0x03, 0x02, 0x00, 0xEE];

/// A list with number 5 and this extension.
pub fn list_with(alloc: Global, extension: &[u8]) -> Result<Vec<u8>, RowFault> {
    let extensions = value(alloc, 0x30, &joined(alloc, &[NUMBER, extension])?)?;
    let tagged = value(alloc, 0xA0, &extensions)?;
    let signed = value(alloc, 0x30, &joined(alloc, &[PLAIN, &tagged])?)?;
    value(alloc, 0x30, &joined(alloc, &[&signed, SIGNATURE])?)
}
