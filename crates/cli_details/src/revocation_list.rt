//! Further lines of a revocation list.

use crate::algorithm::write_algorithm_line;
use crate::extension::{first_with, write_extensions};
use crate::moment::write_moment_line;
use statements_crl::Crl;
use std::alloc::{AllocError, Global};
use std::io;

// The tag of extensions in a list.
const EXTENSIONS: u8 = 0xA0;

fn write_revocation_list(alloc: Global, list: &Crl<'_>, text: &mut Vec<u8>) -> io::Result<()> {
    write_algorithm_line(&list.algorithm, text)?;
    write_moment_line("this-update", list.this_update, text)?;
    write_moment_line("next-update", list.next_update, text)?;
    write_extensions(alloc, first_with(EXTENSIONS, list.tbs), text)
}

/// The algorithm of the list's signature, its dates, and its own extensions in order, each with what it says.
pub fn list_details(alloc: Global, list: &Crl<'_>) -> Result<Vec<u8>, AllocError> {
    let mut text = Vec::new(alloc);
    match write_revocation_list(alloc, list, &mut text) {
        Ok(()) => Ok(text),
        Err(_) => Err(AllocError),
    }
}
