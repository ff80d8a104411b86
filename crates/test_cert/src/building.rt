//! Certificates of components, and of extensions.

use cert::{CertFault, CertRule, Certificate};
use std::alloc::{AllocError, Global};

/// The components of a certificate in order: the places of a table of them.
pub const VERSION: usize = 0;

pub const SERIAL: usize = 1;

pub const ALGORITHM: usize = 2;

pub const ISSUER: usize = 3;

pub const VALIDITY: usize = 4;

pub const SUBJECT: usize = 5;

pub const KEY: usize = 6;
/// Unique identifiers and extensions.
pub const TAIL: usize = 7;

pub const OUTER: usize = 8;

pub const SIGNATURE: usize = 9;
/// What is left over.
pub const REST: usize = 10;

/// A certificate of 100 octets, where the signed part stands at 2, the version at 4, the serial number at 9, the algorithm at
/// 12, the issuer at 18, the validity at 32, the subject at 64, the key at 78, the outer algorithm at 90 and the signature at
/// 96.
pub const PLAIN: [&[u8]; 11] = [
    b"\xA0\x03\x02\x01\x02",
    b"\x02\x01\x05",
    b"\x30\x04\x06\x02\x2A\x03",
    b"\x30\x0C\x31\x0A\x30\x08\x06\x03\x55\x04\x03\x13\x01A",
    b"\x30\x1E\x17\x0D250101000000Z\x17\x0D260101000000Z",
    b"\x30\x0C\x31\x0A\x30\x08\x06\x03\x55\x04\x03\x13\x01T",
    b"\x30\x0A\x30\x04\x06\x02\x2A\x03\x03\x02\x00K",
    b"",
    b"\x30\x04\x06\x02\x2A\x03",
    b"\x03\x02\x00\xEE",
    b"",
];

/// Pushes the value with this identifier octet and these contents, of which there are at most 65,535.
pub fn push_value(all: &mut Vec<u8>, tag: u8, contents: &[u8]) -> Result<(), AllocError> {
    let length = contents.len().to_be_bytes();
    all.push(tag)?;
    match contents.len() {
        0..128 => all.extend_from_slice(&length[7..])?,
        128..256 => {
            all.push(0x81)?;
            all.extend_from_slice(&length[7..])?;
        }
        _ => {
            all.push(0x82)?;
            all.extend_from_slice(&length[6..])?;
        }
    }
    all.extend_from_slice(contents)
}

/// The certificate of these components.
pub fn certificate_of(alloc: Global, components: &[&[u8]; 11]) -> Result<Vec<u8>, AllocError> {
    let mut signed = Vec::new(alloc);
    for component in &components[..OUTER] {
        signed.extend_from_slice(component)?;
    }
    let mut inside = Vec::new(alloc);
    push_value(&mut inside, 0x30, &signed)?;
    for component in &components[OUTER..] {
        inside.extend_from_slice(component)?;
    }
    let mut whole = Vec::new(alloc);
    push_value(&mut whole, 0x30, &inside)?;
    Ok(whole)
}

/// The plain certificate with another component.
pub fn plain_but(alloc: Global, at: usize, octets: &[u8]) -> Result<Vec<u8>, AllocError> {
    let mut components = PLAIN;
    if let Some(component) = components.get_mut(at) {
        *component = octets;
    }
    certificate_of(alloc, &components)
}

/// The plain certificate with these extensions, one behind the other.
pub fn with_list(alloc: Global, list: &[u8]) -> Result<Vec<u8>, AllocError> {
    let mut sequence = Vec::new(alloc);
    push_value(&mut sequence, 0x30, list)?;
    let mut tail = Vec::new(alloc);
    push_value(&mut tail, 0xA3, &sequence)?;
    plain_but(alloc, TAIL, &tail)
}

/// An extension that is not recognised, of 8 octets.
const OTHER_EXTENSION: &[u8] = b"\x30\x06\x06\x02\x2A\x04\x04\x00";

/// The OCTET STRING that the octets are, or that stands behind the NULL inside, at offset 4.
fn split(octets: &[u8]) -> (&[u8], usize) {
    match octets {
        [0x30, _, 0x05, 0x00, octet_string @ ..] => (octet_string, 4),
        _ => (octets, 0),
    }
}

/// The plain certificate with the extension of this type whose value is the OCTET STRING that the octets are; or that stands
/// behind a NULL in them, which is then behind another extension.
pub fn with_extension(alloc: Global, kind: &[u8], octets: &[u8]) -> Result<Vec<u8>, AllocError> {
    let (octet_string, before) = split(octets);
    let mut members = Vec::new(alloc);
    push_value(&mut members, 0x06, kind)?;
    members.extend_from_slice(octet_string)?;
    let mut list = Vec::new(alloc);
    if before > 0 {
        list.extend_from_slice(OTHER_EXTENSION)?;
    }
    push_value(&mut list, 0x30, &members)?;
    with_list(alloc, &list)
}

/// Whether the certificate with this extension is refused for the rule, at this offset in the octets: their OCTET STRING is the
/// last of the signed part, and 10 octets are behind that.
pub fn is_refused_in(
    alloc: Global,
    kind: &[u8],
    octets: &[u8],
    rule: CertRule,
    at: usize,
) -> Result<bool, AllocError> {
    let (octet_string, before) = split(octets);
    let certificate = with_extension(alloc, kind, octets)?;
    let start = certificate
        .len()
        .saturating_sub(octet_string.len().saturating_add(10));
    let place = start.saturating_add(at).saturating_sub(before);
    let answer = Certificate::read(alloc, &certificate).err();
    Ok(answer == Some(CertFault::Refused(rule, place)))
}
