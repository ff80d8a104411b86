//! Algorithms of signatures.

use crate::named_oid::{ALGORITHMS, HASHES, write_named_oid};
use crate::value_fault::{Misplaced, ValueFault};
use asn::{SEQUENCE, Tlv};
use cert::AlgorithmIdentifier;
use std::io;
use std::io::Write;

/// id-RSASSA-PSS: 1.2.840.113549.1.1.10
pub(crate) const RSASSA_PSS: &[u8] = &[0x2A, 0x86, 0x48, 0x86, 0xF7, 0x0D, 0x01, 0x01, 0x0A];

// id-sha1, the default: 1.3.14.3.2.26
const SHA_1: &[u8] = &[0x2B, 0x0E, 0x03, 0x02, 0x1A];

/// The parameters of the algorithm, if there are any.
pub(crate) fn parameters_of<'a>(algorithm: &AlgorithmIdentifier<'a>) -> Option<Tlv<'a>> {
    let mut members = algorithm.value.inside()?;
    members.next();
    members.next()
}

// RSASSA-PSS-params ::= SEQUENCE { hashAlgorithm [0] HashAlgorithm DEFAULT sha1, .. } (RFC 4055, 3.1)
//
// The type of the hash.
fn hash_of_pss(parameters: Tlv<'_>) -> Result<&[u8], ValueFault> {
    parameters.is_a(SEQUENCE, Misplaced)?;
    let mut members = parameters.members();
    let Some(explicit) = members.optional(0xA0) else {
        return Ok(SHA_1);
    };
    let mut inside = explicit.members();
    let hash = AlgorithmIdentifier::read(inside.next_or(Misplaced)?, Misplaced)?;
    inside.ended(Misplaced)?;
    Ok(hash.oid.contents())
}

// Behind the name of RSASSA-PSS, its hash.
fn write_hash_of_pss(parameters: Tlv<'_>, text: &mut Vec<u8>) -> io::Result<()> {
    match hash_of_pss(parameters) {
        Ok(hash) => {
            text.write_all(b" ")?;
            write_named_oid(HASHES, hash, text)
        }
        Err(_) => text.write_all(b" unreadable"),
    }
}

// The name of the algorithm, and of RSASSA-PSS its hash.
fn write_algorithm(algorithm: &AlgorithmIdentifier<'_>, text: &mut Vec<u8>) -> io::Result<()> {
    let identifier = algorithm.oid.contents();
    write_named_oid(ALGORITHMS, identifier, text)?;
    match parameters_of(algorithm) {
        Some(parameters) if identifier == RSASSA_PSS => write_hash_of_pss(parameters, text),
        _ => Ok(()),
    }
}

/// The line of the algorithm of a signature.
pub(crate) fn write_algorithm_line(
    algorithm: &AlgorithmIdentifier<'_>,
    text: &mut Vec<u8>,
) -> io::Result<()> {
    text.write_all(b"algorithm ")?;
    write_algorithm(algorithm, text)?;
    text.write_all(b"\n")
}
