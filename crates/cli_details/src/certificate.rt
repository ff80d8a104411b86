//! Further lines of a certificate.

use crate::algorithm::write_algorithm_line;
use crate::extension::{first_with, write_extensions};
use crate::key::write_key_line;
use crate::moment::write_moment_line;
use cert::Certificate;
use std::alloc::{AllocError, Global};
use std::io;

// The tag of extensions in a certificate.
const EXTENSIONS: u8 = 0xA3;

fn write_certificate(
    alloc: Global,
    certificate: &Certificate<'_>,
    text: &mut Vec<u8>,
) -> io::Result<()> {
    write_algorithm_line(&certificate.algorithm, text)?;
    write_key_line(&certificate.subject_public_key_info, text)?;
    write_moment_line("not-before", certificate.validity.not_before, text)?;
    write_moment_line("not-after", certificate.validity.not_after, text)?;
    write_extensions(alloc, first_with(EXTENSIONS, certificate.tbs), text)
}

/// The algorithms of the certificate's signature and of its key, its dates, and its extensions in order, each with what it says.
pub fn certificate_details(
    alloc: Global,
    certificate: &Certificate<'_>,
) -> Result<Vec<u8>, AllocError> {
    let mut text = Vec::new(alloc);
    match write_certificate(alloc, certificate, &mut text) {
        Ok(()) => Ok(text),
        Err(_) => Err(AllocError),
    }
}
