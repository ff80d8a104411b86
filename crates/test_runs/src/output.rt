//! A standard output that fails.

use std::alloc::Global;
use std::io;
use std::io::Write;

/// What was written, how many writes are taken yet, and whether the end is.
#[derive(Drop)]
pub(crate) struct Output {
    pub(crate) written: Vec<u8>,
    left: usize,
    takes_end: bool,
}

impl Output {
    /// One that never fails.
    pub(crate) fn new(alloc: Global) -> Output {
        let written = Vec::new(alloc);
        Output {
            written,
            left: usize::MAX,
            takes_end: true,
        }
    }

    /// One that takes so many writes, and then answers errors, also at the end.
    pub(crate) fn failing(alloc: Global, left: usize) -> Output {
        let written = Vec::new(alloc);
        Output {
            written,
            left,
            takes_end: false,
        }
    }
}

impl Write for Output {
    fn write(&mut self, buf: &[u8]) -> io::Result<usize> {
        if self.left == 0 {
            return Err(io::Error::from(io::ErrorKind::StorageFull));
        }
        self.left -= 1;
        self.written.extend_from_slice(buf)?;
        Ok(buf.len())
    }

    fn flush(&mut self) -> io::Result<()> {
        match self.takes_end {
            true => Ok(()),
            false => Err(io::Error::from(io::ErrorKind::StorageFull)),
        }
    }
}
