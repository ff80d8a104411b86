//! Sources for tests, over octets in memory.

ghost use Rattle.std.specs.Prelude.{Some, ◌<◌};
ghost use Rattle.std.specs.Io.KnownBytes.{ReadConsumes};

use std::io;
use std::io::{ErrorKind, Read};

/// A source that hands out at most so many octets a call.
#[derive(Drop)]
pub(crate) struct Cut<'a> {
    pub octets: &'a [u8],
    pub most: usize,
    pub ghost some: { 0 < most },
}

impl<'a> Read for Cut<'a> {
    ghost remaining = { λ source. Some source.octets.now };

    fn read(&mut self, buf: &mut [u8]) -> io::Result<usize> {
        let room = buf.len().min(self.most);
        self.octets.read(&mut buf[..room])
    }
}

/// A source without an end, of one octet again and again.
#[derive(Drop)]
pub(crate) struct Endless {
    pub octet: u8,
}

impl Read for Endless {
    fn read(&mut self, buf: &mut [u8]) -> io::Result<usize> {
        buf.fill(self.octet);
        Ok(buf.len())
    }
}

/// A source that hands out one octet a call, and answers an error at the call with that number.
#[derive(Drop)]
pub(crate) struct Failing<'a> {
    pub octets: &'a [u8],
    pub calls: usize,
    pub fails_at: usize,
}

impl<'a> Read for Failing<'a> {
    fn read(&mut self, buf: &mut [u8]) -> io::Result<usize> {
        self.calls = self.calls.saturating_add(1);
        if self.calls == self.fails_at {
            return Err(io::Error::from(ErrorKind::Interrupted));
        }
        let room = buf.len().min(1);
        self.octets.read(&mut buf[..room])
    }
}

/// Whether the answer is a value with these octets.
pub(crate) fn is_value(answer: &Option<Vec<u8>>, octets: &[u8]) -> bool {
    match answer {
        Some(found) => found.as_slice() == octets,
        None => false,
    }
}
