//! The bits of a BIT STRING by their names.

use cli_printing::write_octets;
use std::io;
use std::io::Write;

/// KeyUsage (RFC 5280, 4.2.1.3)
pub(crate) const KEY_USAGE: &[&str; 9] = &[
    "digitalSignature",
    "nonRepudiation",
    "keyEncipherment",
    "dataEncipherment",
    "keyAgreement",
    "keyCertSign",
    "cRLSign",
    "encipherOnly",
    "decipherOnly",
];

/// ReasonFlags (RFC 5280, 4.2.1.13)
pub(crate) const REASONS: &[&str; 9] = &[
    "unused",
    "keyCompromise",
    "cACompromise",
    "affiliationChanged",
    "superseded",
    "cessationOfOperation",
    "certificateHold",
    "privilegeWithdrawn",
    "aACompromise",
];

fn is_set(bits: &[u8], bit: usize) -> bool {
    match bits.get(bit / 8) {
        Some(octet) => *octet & (128 >> (bit % 8)) != 0,
        None => false,
    }
}

// Whether a bit behind the nine that have names is set.
fn has_others(bits: &[u8]) -> bool {
    match bits {
        [_, second, others @ ..] => *second & 127 != 0 || others.iter().any(|octet| *octet != 0),
        _ => false,
    }
}

/// A line for each bit that is set, behind the words: its name. If others are set too, one for all octets.
pub(crate) fn write_bits(
    words: &str,
    names: &[&str; 9],
    bits: &[u8],
    text: &mut Vec<u8>,
) -> io::Result<()> {
    'names: for (bit, name) in names.iter().enumerate() {
        if is_set(bits, bit) {
            writeln!(text, "{words}{name}")?;
        }
    }
    match has_others(bits) {
        true => write_octets("  bits", bits, text),
        false => Ok(()),
    }
}
