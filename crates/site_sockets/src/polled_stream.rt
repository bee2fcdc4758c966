//! A stream whose reads look for input for a while before they sleep.
ghost use Rattle.std.specs.Prelude.{◌≤◌, length, IfOk, IfSome};

use crate::polling::Polling;
use std::io::{ErrorKind, Read};
use std::net::TcpStream;
use std::{io, thread};

/// How often a read looks for input before it sleeps, if it polls: for some 50 microseconds.
const LOOKS: u32 = 100;

/// A stream that one thread reads.
#[derive(Drop)]
pub(crate) struct PolledStream<'a> {
    stream: &'a TcpStream,
    polling: Polling,
    /// Whether reads and writes of the stream block.
    is_blocking: bool,
}

impl<'a> PolledStream<'a> {
    pub(crate) fn new(stream: &'a TcpStream) -> PolledStream<'a> {
        PolledStream {
            stream,
            polling: Polling::new(),
            is_blocking: true,
        }
    }

    /// Reads what comes soon. `None` if nothing does, or if this read does not poll. Afterwards the stream may not
    /// block.
    pub(crate) fn read_soon(&mut self, buf: &mut [u8]) -> io::Result<Option<usize>>
        ensures { IfOk result (λ found. IfSome found (λ count. count ≤ length buf.new)) }
    {
        if !self.polling.is_due() {
            return Ok(None);
        }
        if self.is_blocking {
            self.stream.set_nonblocking(true)?;
            self.is_blocking = false;
        }
        let found = look(self.stream, buf)?;
        self.polling.note(found.is_some());
        Ok(found)
    }

    /// The stream, whose reads and writes block from now on.
    pub(crate) fn blocking(&mut self) -> io::Result<&'a TcpStream> {
        if !self.is_blocking {
            self.stream.set_nonblocking(false)?;
            self.is_blocking = true;
        }
        Ok(self.stream)
    }
}

/// Looks for input of a stream that does not block. `None` if none came.
fn look(mut stream: &TcpStream, buf: &mut [u8]) -> io::Result<Option<usize>>
    ensures { IfOk result (λ found. IfSome found (λ count. count ≤ length buf.new)) }
{
    for _ in 0..LOOKS {
        match stream.read(buf) {
            Ok(count) => return Ok(Some(count)),
            Err(error) if error.kind() == ErrorKind::WouldBlock => thread::yield_now(),
            Err(error) if error.kind() == ErrorKind::Interrupted => {}
            Err(error) => return Err(error),
        }
    }
    Ok(None)
}
