//! Streams that have a descriptor, read and written with a limit on each wait, as sockets can be.
#![tactic(auto)]

ghost use Rattle.std.specs.Prelude.{◌≤◌, ◌∷◌, [], length};

use libc::net::{POLLIN, POLLOUT, POLLRDHUP, poll};
use libc::types::pollfd;
use os::errno;
use std::io;
use std::io::{Error, ErrorKind, Read, Write};
use std::os::fd::AsRawFd;

/// The greatest number of bytes of one write. Linux lets a pipe count as ready only if it takes so many at once.
pub const MAX_WRITE: usize = 4096;

/// A stream that waits only for so long: then a read or a write fails with `WouldBlock`. If it was interrupted, it
/// fails with `Interrupted`. A write takes `MAX_WRITE` bytes at most.
#[derive(Drop)]
pub struct TimedStream<S> {
    stream: S,
    milliseconds: u16,
}

impl<S> TimedStream<S> {
    /// Each read and each write waits for so many milliseconds at most.
    pub fn new(stream: S, milliseconds: u16) -> TimedStream<S> {
        TimedStream {
            stream,
            milliseconds,
        }
    }
}

impl<S: AsRawFd> TimedStream<S> {
    fn wait(&self, events: i16) -> io::Result<()> {
        wait_for(&self.stream, events, self.milliseconds)
    }
}

/// Waits until the stream or the listener has something to be read or accepted, for so many milliseconds at most.
/// Errors: `WouldBlock` if nothing came in time, or what the system reports.
pub fn wait_readable<S: AsRawFd>(stream: &S, milliseconds: u16) -> io::Result<()> {
    wait_for(stream, POLLIN, milliseconds)
}

/// Waits for these events. Errors: `WouldBlock` if none came in time, or what the system reports.
fn wait_for<S: AsRawFd>(stream: &S, events: i16, milliseconds: u16) -> io::Result<()> {
    let mut fds = [pollfd {
        fd: stream.as_raw_fd(),
        events,
        revents: 0,
    }];
    match poll(&mut fds, i32::from(milliseconds)) {
        -1 => Err(Error::from_raw_os_error(errno())),
        0 => Err(Error::from(ErrorKind::WouldBlock)),
        _ => Ok(()),
    }
}

/// Whether the other end of this connection sends nothing more: it was closed, shut down for writing, or reset. Bytes
/// that were not read yet do not hide that.
pub fn has_left<S: AsRawFd>(stream: &S) -> bool {
    let mut fds = [pollfd {
        fd: stream.as_raw_fd(),
        events: POLLRDHUP,
        revents: 0,
    }];
    poll(&mut fds, 0) > 0
}

impl<S: Read + AsRawFd> Read for TimedStream<S> {
    ghost remaining = { λ s. S.remaining s.stream };

    fn read(&mut self, buf: &mut [u8]) -> io::Result<usize> {
        self.wait(POLLIN)?;
        self.stream.read(buf)
    }
}

impl<S: Write + AsRawFd> Write for TimedStream<S> {
    ghost contents = { λ s. S.contents s.stream };

    fn write(&mut self, buf: &[u8]) -> io::Result<usize> {
        self.wait(POLLOUT)?;
        let count = buf.len().min(MAX_WRITE);
        self.stream.write(&buf[..count])
    }

    fn flush(&mut self) -> io::Result<()> {
        self.stream.flush()
    }
}
