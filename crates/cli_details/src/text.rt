//! Octets as the text that they are.

use cli_printing::write_hex;
use std::io;
use std::io::Write;

// Whether the octet stands for itself: it prints, and begins no escape.
fn is_plain(octet: u8) -> bool {
    b' ' <= octet && octet <= b'~' && octet != b'\\'
}

fn write_octet(octet: u8, text: &mut Vec<u8>) -> io::Result<()> {
    if is_plain(octet) {
        return text.write_all(&[octet]);
    }
    text.write_all(b"\\")?;
    write_hex(&[octet], text)
}

/// Writes octets that end their line: printable ones but the backslash as they are, others as a backslash and two digits.
pub(crate) fn write_text(octets: &[u8], text: &mut Vec<u8>) -> io::Result<()> {
    'octets: for octet in octets {
        write_octet(*octet, text)?;
    }
    Ok(())
}
