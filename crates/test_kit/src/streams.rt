//! Streams that read or write few bytes at a time.

use std::alloc::Allocator;
use std::io;
use std::io::{ErrorKind, Read, Write};

/// A writer that takes at most this number of bytes at a time, and keeps them.
#[derive(Drop)]
pub struct Slow<A: Allocator> {
    /// What was written.
    pub text: Vec<u8, A>,
    /// The greatest number of bytes of one write.
    pub step: usize,
}

impl<A: Allocator> Write for Slow<A> {
    fn write(&mut self, buf: &[u8]) -> io::Result<usize> {
        let count = buf.len().min(self.step);
        if self.text.extend_from_slice(&buf[..count]).is_err() {
            return Err(io::Error::from(ErrorKind::OutOfMemory));
        }
        Ok(count)
    }

    fn flush(&mut self) -> io::Result<()> {
        Ok(())
    }
}

/// A reader that returns at most this number of bytes at a time.
#[derive(Drop)]
pub struct FewAtATime<'a> {
    /// The bytes that are still to be read.
    pub rest: &'a [u8],
    /// The greatest number of bytes of one read.
    pub step: usize,
}

impl Read for FewAtATime<'_> {
    fn read(&mut self, buf: &mut [u8]) -> io::Result<usize> {
        let count = buf.len().min(self.step).min(self.rest.len());
        buf[..count].copy_from_slice(&self.rest[..count]);
        self.rest = &self.rest[count..];
        Ok(count)
    }
}
