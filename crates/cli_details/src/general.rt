//! General names and bases of subtrees, a line each (RFC 5280, 4.2.1.6 and 4.2.1.10).

use crate::address::write_address;
use crate::text::write_text;
use crate::value_fault::{Misplaced, Written};
use asn::{Cursor, Tlv};
use cli_printing::{write_contents, write_name};
use names::{Domain, General, Name, Subtree};
use std::io;
use std::io::Write;

fn write_directory(name: &Name<'_>, text: &mut Vec<u8>) -> io::Result<()> {
    text.write_all(b"dir ")?;
    write_name(name, text)
}

// A name or a base of a form that is a text, or else the number of the form and the contents.
fn write_other(number: u8, contents: &[u8], text: &mut Vec<u8>) -> io::Result<()> {
    match number {
        1 => {
            text.write_all(b"email ")?;
            write_text(contents, text)
        }
        6 => {
            text.write_all(b"uri ")?;
            write_text(contents, text)
        }
        _ => {
            write!(text, "{number}")?;
            write_contents(contents, text)
        }
    }
}

/// Writes the name behind the word of its form.
pub(crate) fn write_general(name: &General<'_>, text: &mut Vec<u8>) -> io::Result<()> {
    match name {
        General::Directory(name) => write_directory(name, text),
        General::Dns(name) => {
            text.write_all(b"dns ")?;
            write_text(name, text)
        }
        General::Ip(address) => {
            text.write_all(b"ip ")?;
            write_address(address, text)
        }
        General::Other(number, contents) => write_other(*number, contents, text),
    }
}

// The domain of a DNS constraint, as it stands in the certificate.
fn write_domain(domain: &Domain<'_>, text: &mut Vec<u8>) -> io::Result<()> {
    match domain {
        Domain::Every => text.write_all(b"dns"),
        Domain::Within(name) => {
            text.write_all(b"dns ")?;
            write_text(name, text)
        }
        Domain::Below(name) => {
            text.write_all(b"dns .")?;
            write_text(name, text)
        }
    }
}

/// Writes the base of a subtree behind the word of its form.
pub(crate) fn write_base(base: &Subtree<'_>, text: &mut Vec<u8>) -> io::Result<()> {
    match base {
        Subtree::Directory(name) => write_directory(name, text),
        Subtree::Dns(domain) => write_domain(domain, text),
        Subtree::Ip(range) => {
            let prefix = range.prefix;
            text.write_all(b"ip ")?;
            write_address(range.address, text)?;
            write!(text, "/{prefix}")
        }
        Subtree::Other(number, contents) => write_other(*number, contents, text),
    }
}

/// The line of a general name, behind the words.
pub(crate) fn write_general_line(words: &str, value: Tlv<'_>, text: &mut Vec<u8>) -> Written {
    let name = General::read(value)?;
    text.write_all(words.as_bytes())?;
    write_general(&name, text)?;
    text.write_all(b"\n")?;
    Ok(())
}

/// GeneralNames ::= SEQUENCE SIZE (1..MAX) OF GeneralName
///
/// A line for each, behind the words.
pub(crate) fn write_general_lines(words: &str, names: Cursor<'_>, text: &mut Vec<u8>) -> Written {
    names.some(Misplaced)?;
    let mut names = names;
    while let Some(value) = names.next() {
        write_general_line(words, value, text)?;
    }
    Ok(())
}
