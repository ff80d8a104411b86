//! What a certificate's key and the names below it may be (RFC 5280, 4.2.1.3, 4.2.1.9, 4.2.1.10 and 4.2.1.12).

use crate::bits::{KEY_USAGE, write_bits};
use crate::general::write_base;
use crate::named_oid::{PURPOSES, write_named_oid};
use crate::value_fault::{Misplaced, Written};
use asn::{OBJECT_IDENTIFIER, SEQUENCE, Tlv};
use cert::{BasicConstraints, KeyUsage, NameConstraints};
use names::Subtree;
use std::alloc::Global;
use std::io;
use std::io::Write;

/// The names of the bits of keyUsage.
pub(crate) fn write_key_usage(octet_string: Tlv<'_>, text: &mut Vec<u8>) -> Written {
    let usage = KeyUsage::read(octet_string)?;
    write_bits("  ", KEY_USAGE, usage.bits, text)?;
    Ok(())
}

/// Whether the subject is an authority, and the path length.
pub(crate) fn write_basic_constraints(octet_string: Tlv<'_>, text: &mut Vec<u8>) -> Written {
    let constraints = BasicConstraints::read(octet_string)?;
    match constraints.ca {
        true => text.write_all(b"  ca yes\n")?,
        false => text.write_all(b"  ca no\n")?,
    }
    if let Some(length) = constraints.path_length {
        writeln!(text, "  path-length {length}")?;
    }
    Ok(())
}

fn write_subtree(words: &str, base: &Subtree<'_>, text: &mut Vec<u8>) -> io::Result<()> {
    text.write_all(words.as_bytes())?;
    write_base(base, text)?;
    text.write_all(b"\n")
}

fn write_subtrees(words: &str, bases: &[Subtree<'_>], text: &mut Vec<u8>) -> io::Result<()> {
    'bases: for base in bases {
        write_subtree(words, base, text)?;
    }
    Ok(())
}

/// The bases of permitted subtrees, and then those of excluded ones.
pub(crate) fn write_name_constraints(
    alloc: Global,
    octet_string: Tlv<'_>,
    text: &mut Vec<u8>,
) -> Written {
    let constraints = NameConstraints::read(alloc, octet_string)?;
    write_subtrees("  permit ", constraints.permitted.as_slice(), text)?;
    write_subtrees("  exclude ", constraints.excluded.as_slice(), text)?;
    Ok(())
}

/// ExtKeyUsageSyntax ::= SEQUENCE SIZE (1..MAX) OF KeyPurposeId
pub(crate) fn write_purposes(value: Tlv<'_>, text: &mut Vec<u8>) -> Written {
    value.is_a(SEQUENCE, Misplaced)?;
    let mut purposes = value.members();
    purposes.some(Misplaced)?;
    while let Some(purpose) = purposes.next() {
        purpose.is_a(OBJECT_IDENTIFIER, Misplaced)?;
        text.write_all(b"  ")?;
        write_named_oid(PURPOSES, purpose.body, text)?;
        text.write_all(b"\n")?;
    }
    Ok(())
}
