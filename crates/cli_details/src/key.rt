//! Keys of subjects: the algorithm, and the size or the curve.

use crate::algorithm::{RSASSA_PSS, parameters_of};
use crate::named_oid::{ALGORITHMS, CURVES, write_named_oid};
use crate::value_fault::{Misplaced, ValueFault};
use asn::{INTEGER, OBJECT_IDENTIFIER, SEQUENCE, Tlv};
use cert::SubjectPublicKeyInfo;
use std::io;
use std::io::Write;

// rsaEncryption: 1.2.840.113549.1.1.1
const RSA: &[u8] = &[0x2A, 0x86, 0x48, 0x86, 0xF7, 0x0D, 0x01, 0x01, 0x01];

// id-ecPublicKey: 1.2.840.10045.2.1
const ELLIPTIC_CURVE: &[u8] = &[0x2A, 0x86, 0x48, 0xCE, 0x3D, 0x02, 0x01];

// The count of bits of a positive INTEGER, from its contents.
fn bit_count(contents: &[u8]) -> usize {
    let octets = match contents {
        [0, octets @ ..] => octets,
        _ => contents,
    };
    match octets {
        [] => 0,
        [first, others @ ..] => {
            let highest = 8usize.saturating_sub(first.leading_zeros() as usize);
            others.len().saturating_mul(8).saturating_add(highest)
        }
    }
}

// RSAPublicKey ::= SEQUENCE { modulus INTEGER, publicExponent INTEGER } (RFC 3279, 2.3.1)
//
// The count of bits of the modulus.
fn modulus_bits(key: &[u8]) -> Result<usize, ValueFault> {
    let value = Tlv::outermost(key)?;
    value.is_a(SEQUENCE, Misplaced)?;
    let modulus = value.members().required(INTEGER, Misplaced)?;
    Ok(bit_count(modulus.body))
}

fn write_modulus_bits(key: &[u8], text: &mut Vec<u8>) -> io::Result<()> {
    match modulus_bits(key) {
        Ok(bits) => write!(text, " {bits}"),
        Err(_) => text.write_all(b" unreadable"),
    }
}

// ECParameters ::= CHOICE { namedCurve OBJECT IDENTIFIER, .. } (RFC 5480, 2.1.1)
fn write_curve(parameters: Option<Tlv<'_>>, text: &mut Vec<u8>) -> io::Result<()> {
    match parameters {
        Some(curve) if curve.tag == OBJECT_IDENTIFIER => {
            text.write_all(b" ")?;
            write_named_oid(CURVES, curve.body, text)
        }
        Some(_) => text.write_all(b" explicit"),
        None => Ok(()),
    }
}

// The size of the key or its curve, if the algorithm is known to have one.
fn write_size(info: &SubjectPublicKeyInfo<'_>, text: &mut Vec<u8>) -> io::Result<()> {
    let algorithm = info.algorithm.oid.contents();
    if algorithm == RSA || algorithm == RSASSA_PSS {
        write_modulus_bits(info.key.octets(), text)
    } else if algorithm == ELLIPTIC_CURVE {
        write_curve(parameters_of(&info.algorithm), text)
    } else {
        Ok(())
    }
}

/// The line of the key.
pub(crate) fn write_key_line(
    info: &SubjectPublicKeyInfo<'_>,
    text: &mut Vec<u8>,
) -> io::Result<()> {
    text.write_all(b"key-algorithm ")?;
    write_named_oid(ALGORITHMS, info.algorithm.oid.contents(), text)?;
    write_size(info, text)?;
    text.write_all(b"\n")
}
