//! What is printed to a writer that fails, and of long contents.

use crate::output::Output;
use cert::Certificate;
use cli_printing::{TreeFault, certificate_print_to, certificate_to, tree_to};
use std::alloc::AllocError;
use std::fmt::Write;
use std::test::Fail;

const OCTETS: [u8; 10] = [0x30, 0x08, 0x01, 0x01, 0xFF, 0x05, 0x00, 0x02, 0x01, 0x80];

const TEXT: &str = "30 8\n  01 1 ff\n  05 0\n  02 1 80\n";

#[test]
fn a_failed_write_is_told(rt: HostRuntime) -> Result<(), Fail> {
    let mut has_ended = false;
    for left in 0..100 {
        let mut writer = Output::failing(rt.alloc(), left);
        let outcome = tree_to(&OCTETS, &mut writer);
        let text = writer.written.as_slice();
        match outcome {
            Ok(()) => {
                assert!(rt; text == TEXT.as_bytes(), "after {left} writes");
                has_ended = true;
            }
            Err(fault) => {
                let is_so = matches!(fault, TreeFault::Io) && TEXT.as_bytes().starts_with(text);
                assert!(rt; is_so && !has_ended, "after {left} writes");
            }
        }
    }
    assert!(rt; has_ended);
    Ok(())
}

// Of a DNS name and an extension that is critical and not recognised.
pub(crate) const CERTIFICATE: &[u8] = b"\
\x30\x7F\x30\x73\xA0\x03\x02\x01\x02\x02\x01\x05\x30\x04\x06\x02\x2A\x03\x30\x0C\x31\x0A\x30\x08\
\x06\x03\x55\x04\x03\x13\x01\x41\x30\x1E\x17\x0D\x32\x35\x30\x31\x30\x31\x30\x30\x30\x30\x30\x30\
\x5A\x17\x0D\x32\x36\x30\x31\x30\x31\x30\x30\x30\x30\x30\x30\x5A\x30\x0C\x31\x0A\x30\x08\x06\x03\
\x55\x04\x03\x13\x01\x54\x30\x0A\x30\x04\x06\x02\x2A\x03\x03\x02\x00\x4B\xA3\x1B\x30\x19\x30\x0C\
\x06\x03\x55\x1D\x11\x04\x05\x30\x03\x82\x01\x6E\x30\x09\x06\x02\x2A\x03\x01\x01\xFF\x04\x00\x30\
\x04\x06\x02\x2A\x03\x03\x02\x00\xEE";

pub(crate) const LINES: &[u8] = b"\
certificate
version 3
serial 05
issuer /2.5.4.3=A
subject /2.5.4.3=T
from 1735689600
until 1767225600
key 4b
alt dns n
critical 1.2.3
";

// Under the key of the same certificate; a script that takes the digest by Python's hashlib gives it.
pub(crate) const PRINT: &[u8] =
    b"451df92c641e2a0ebfd83fc11ee1c309728f2a9a1e37994d3db2a79a4dcd6c91 certificate issuer\n";

// Whether all of the text is written, or a failure is told and less of it is.
fn is_told(written: &[u8], text: &[u8], is_done: bool) -> bool {
    text.starts_with(written) && (written.len() == text.len()) == is_done
}

#[test]
fn a_failed_write_of_a_certificate_is_told(rt: HostRuntime) -> Result<(), Fail> {
    let alloc = rt.alloc();
    let read = Certificate::read(alloc, CERTIFICATE).ok();
    let read = read.ok_or("a certificate")?;
    let key_info = &read.subject_public_key_info;
    let mut has_ended = false;
    for left in 0..100 {
        let mut writer = Output::failing(alloc, left);
        has_ended = certificate_to(&read, &mut writer).is_ok();
        let text = writer.written.as_slice();
        assert!(rt; is_told(text, LINES, has_ended), "after {left} writes");

        let mut writer = Output::failing(alloc, left);
        let is_done = certificate_print_to(&read, key_info, false, &mut writer).is_ok();
        let text = writer.written.as_slice();
        assert!(rt; is_told(text, PRINT, is_done), "after {left} writes");
    }
    assert!(rt; has_ended);
    Ok(())
}

// An OCTET STRING of these contents, of 128 octets up to 255.
fn octet_string(rt: &HostRuntime, size: u8) -> Result<Vec<u8>, AllocError> {
    let mut octets = Vec::from_slice(rt.alloc(), &[0x04, 0x81, size])?;
    for octet in 0..size {
        octets.push(octet)?;
    }
    Ok(octets)
}

const SIZES: &[u8] = &[128, 129, 191, 192, 193, 255];

#[test]
fn long_contents_are_printed_whole(rt: HostRuntime) -> Result<(), Fail> {
    for size in SIZES.iter() {
        let size = *size;
        let octets = octet_string(&rt, size)?;
        let mut wanted = format!(in rt.alloc(); "04 {size} ")?;
        for octet in 0..size {
            write!(wanted, "{octet:02x}")?;
        }
        wanted.push_str("\n")?;
        let mut output = Output::new(rt.alloc());
        let is_done = tree_to(octets.as_slice(), &mut output).is_ok();
        assert!(rt;
            is_done && output.written.as_slice() == wanted.as_bytes(),
            "{size} octets"
        );
    }
    Ok(())
}

#[test]
fn nothing_is_written_of_refused_octets(rt: HostRuntime) {
    let mut output = Output::new(rt.alloc());
    let outcome = tree_to(&[0x30, 0x03, 0x02, 0x02, 0x01], &mut output);
    assert!(rt; matches!(outcome, Err(TreeFault::Refused(_))));
    assert!(rt; output.written.is_empty());
}
