//! A stream that is read until a deadline, however slowly its bytes arrive.

use std::io;
use std::io::{ErrorKind, Read};
use std::net::TcpStream;
use std::time::{Clock, Duration, Instant};

/// A stream that is read until a deadline. A read after the deadline fails.
#[derive(Drop)]
pub struct DeadlineReader<'a, R> {
    rt: &'a R,
    stream: &'a TcpStream,
    since: Instant,
    time: Duration,
}

impl<'a, R: Clock> DeadlineReader<'a, R> {
    /// Its deadline is this time from now.
    pub(crate) fn new(
        rt: &'a R,
        stream: &'a TcpStream,
        time: Duration,
    ) -> io::Result<DeadlineReader<'a, R>> {
        Ok(DeadlineReader {
            rt,
            stream,
            since: Instant::now(rt)?,
            time,
        })
    }
}

impl<R: Clock> Read for DeadlineReader<'_, R> {
    fn read(&mut self, buf: &mut [u8]) -> io::Result<usize> {
        let waited = self.since.elapsed(self.rt)?;
        let Some(left) = self.time.checked_sub(waited) else {
            return Err(io::Error::from(ErrorKind::TimedOut));
        };
        self.stream.set_read_timeout(Some(left))?;
        let mut stream = self.stream;
        stream.read(buf)
    }
}
