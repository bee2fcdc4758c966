//! Readers and writers that fail.
use crate::tests::outbox::put_beats;
use peer_links::Outbox;
use std::alloc::{Allocator, Global};
use std::io;
use std::io::{ErrorKind, Read, Write};
use std::sync::Wait;
use test_kit::Slow;

/// A writer that accepts this number of bytes in all, and then fails.
#[derive(Drop)]
pub(crate) struct Torn<A: Allocator> {
    /// What was written.
    pub(crate) text: Vec<u8, A>,
    /// How many bytes it still accepts.
    pub(crate) room: usize,
}

impl<A: Allocator> Write for Torn<A> {
    fn write(&mut self, buf: &[u8]) -> io::Result<usize> {
        if self.room == 0 {
            return Err(io::Error::from(ErrorKind::BrokenPipe));
        }
        let count = buf.len().min(self.room);
        if self.text.extend_from_slice(&buf[..count]).is_err() {
            return Err(io::Error::from(ErrorKind::OutOfMemory));
        }
        self.room -= count;
        Ok(count)
    }

    fn flush(&mut self) -> io::Result<()> {
        Ok(())
    }
}

/// A writer that is interrupted before each write that takes bytes, and counts these writes.
#[derive(Drop)]
pub(crate) struct Counting<A: Allocator> {
    /// Where the bytes go.
    pub(crate) writer: Slow<A>,
    /// How many writes took bytes.
    pub(crate) writes: u64,
    pub(crate) interrupted: bool,
}

impl<A: Allocator> Write for Counting<A> {
    fn write(&mut self, buf: &[u8]) -> io::Result<usize> {
        if !self.interrupted {
            self.interrupted = true;
            return Err(io::Error::from(ErrorKind::Interrupted));
        }
        self.interrupted = false;
        self.writes = self.writes.wrapping_add(1);
        self.writer.write(buf)
    }

    fn flush(&mut self) -> io::Result<()> {
        Ok(())
    }
}

/// A reader that returns its bytes, at most this number at a time, and then fails.
#[derive(Drop)]
pub(crate) struct Failing<'a> {
    /// The bytes that are still to be read.
    pub(crate) rest: &'a [u8],
    /// The greatest number of bytes of one read.
    pub(crate) step: usize,
}

impl Read for Failing<'_> {
    fn read(&mut self, buf: &mut [u8]) -> io::Result<usize> {
        if self.rest.is_empty() {
            return Err(io::Error::from(ErrorKind::ConnectionReset));
        }
        let count = buf.len().min(self.step).min(self.rest.len());
        buf[..count].copy_from_slice(&self.rest[..count]);
        self.rest = &self.rest[count..];
        Ok(count)
    }
}

/// A reader that is interrupted before each read.
#[derive(Drop)]
pub(crate) struct Interrupted<'a> {
    /// The bytes that are still to be read.
    pub(crate) rest: &'a [u8],
    /// The greatest number of bytes of one read.
    pub(crate) step: usize,
    pub(crate) interrupted: bool,
}

impl Read for Interrupted<'_> {
    fn read(&mut self, buf: &mut [u8]) -> io::Result<usize> {
        if !self.interrupted {
            self.interrupted = true;
            return Err(io::Error::from(ErrorKind::Interrupted));
        }
        self.interrupted = false;
        let count = buf.len().min(self.step).min(self.rest.len());
        buf[..count].copy_from_slice(&self.rest[..count]);
        self.rest = &self.rest[count..];
        Ok(count)
    }
}

/// A reader that counts its reads, and returns as many bytes as they have room for.
#[derive(Drop)]
pub(crate) struct Counted<'a> {
    /// The bytes that are still to be read.
    pub(crate) rest: &'a [u8],
    pub(crate) reads: u64,
}

impl Read for Counted<'_> {
    fn read(&mut self, buf: &mut [u8]) -> io::Result<usize> {
        self.reads = self.reads.wrapping_add(1);
        let count = buf.len().min(self.rest.len());
        buf[..count].copy_from_slice(&self.rest[..count]);
        self.rest = &self.rest[count..];
        Ok(count)
    }
}

/// A writer that puts the next beat into the outbox at each write, so that each write is of one line, and
/// ends the outbox after the last one.
#[derive(Drop)]
pub(crate) struct Feeding<'a, R: Wait> {
    pub(crate) rt: &'a R,
    pub(crate) alloc: Global,
    pub(crate) outbox: &'a Outbox,
    /// The number of the next beat.
    pub(crate) next: u64,
    /// The number after that of the last one.
    pub(crate) end: u64,
    /// What was written.
    pub(crate) text: Vec<u8>,
}

impl<R: Wait> Write for Feeding<'_, R> {
    fn write(&mut self, buf: &[u8]) -> io::Result<usize> {
        if self.text.extend_from_slice(buf).is_err() {
            return Err(io::Error::from(ErrorKind::OutOfMemory));
        }
        if self.next == self.end {
            self.outbox.end(self.rt);
        } else if put_beats(
            self.rt,
            self.alloc,
            self.outbox,
            self.next,
            self.next.wrapping_add(1),
        ) {
            self.next = self.next.wrapping_add(1);
        }
        Ok(buf.len())
    }

    fn flush(&mut self) -> io::Result<()> {
        Ok(())
    }
}
