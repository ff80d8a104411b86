//! Certificates with the extensions of a row, and faults as a row has them.

use cert::{CertFault, CertRule};
use std::alloc::{AllocError, AllocFailed, Global};

/// Why a row has no answer.
#[derive(Clone, Copy, Debug, PartialEq, Eq)]
pub enum RowFault {
    Memory,
    /// A word that the notation does not have, or octets that are no certificate.
    Word,
}

impl From<AllocError> for RowFault {
    fn from(_: AllocError) -> RowFault {
        RowFault::Memory
    }
}

impl<T: Drop> From<AllocFailed<T>> for RowFault {
    fn from(_: AllocFailed<T>) -> RowFault {
        RowFault::Memory
    }
}

/// A value: its identifier, its length, and its contents, of fewer than 256 octets.
pub fn value(alloc: Global, tag: u8, contents: &[u8]) -> Result<Vec<u8>, RowFault> {
    let mut octets = Vec::new(alloc);
    octets.push(tag)?;
    let length = u8::try_from(contents.len()).map_err(|_| RowFault::Word)?;
    if length > 127 {
        octets.push(0x81)?;
    }
    octets.push(length)?;
    octets.extend_from_slice(contents)?;
    Ok(octets)
}

/// The values behind one another.
pub fn joined(alloc: Global, values: &[&[u8]]) -> Result<Vec<u8>, RowFault> {
    let mut octets = Vec::new(alloc);
    for value in values {
        octets.extend_from_slice(value)?;
    }
    Ok(octets)
}

/// An extension of the type with these contents; `critical` is empty, or the octets of the BOOLEAN.
pub fn extension(
    alloc: Global,
    oid: &[u8],
    critical: &[u8],
    contents: &[u8],
) -> Result<Vec<u8>, RowFault> {
    let oid = value(alloc, 0x06, oid)?;
    let octet_string = value(alloc, 0x04, contents)?;
    value(
        alloc,
        0x30,
        &joined(alloc, &[&oid, critical, &octet_string])?,
    )
}

/// What stands in the signed part before the extensions: version 3, and no more than there has to be.
const PLAIN: &[u8] =
    b"\xA0\x03\x02\x01\x02\x02\x01\x05\x30\x04\x06\x02\x2A\x03\x30\x0C1\x0A0\x08\x06\x03\x55\x04\x03\x13\x01A\x30\x1E\x17\x0D250101000000Z\x17\x0D260101000000Z\x30\x0C1\x0A0\x08\x06\x03\x55\x04\x03\x13\x01T\x30\x0A\x30\x04\x06\x02\x2A\x03\x03\x02\x00K";

/// The signature algorithm and the signature.
pub const SIGNATURE: &[u8] = &[0x30, 0x04, 0x06, 0x02, 0x2A, 0x03, 0x03, 0x02, 0x00, 0xEE];

/// A certificate with these extensions, or with no list of them.
pub fn certificate(alloc: Global, extensions: Option<&[u8]>) -> Result<Vec<u8>, RowFault> {
    let tagged = match extensions {
        None => Vec::new(alloc),
        Some(extensions) => value(alloc, 0xA3, &value(alloc, 0x30, extensions)?)?,
    };
    let signed = value(alloc, 0x30, &joined(alloc, &[PLAIN, &tagged])?)?;
    value(alloc, 0x30, &joined(alloc, &[&signed, SIGNATURE])?)
}

/// A fault as a row has it, with its offset behind so many octets.
pub fn told(alloc: Global, fault: CertFault, before: usize) -> Result<String, RowFault> {
    let at = fault.place().unwrap_or(0).saturating_sub(before);
    match fault {
        CertFault::Refused(CertRule::Der(rule), _) => {
            Ok(format!(in alloc; "Der({}) {at}", rule.name())?)
        }
        _ => Ok(format!(in alloc; "{} {at}", fault.name())?),
    }
}
