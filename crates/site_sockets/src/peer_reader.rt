//! The reading end of a peer's connection.
ghost use Rattle.std.specs.Prelude.{◌≤◌, length, IfOk};

use crate::peer::PeerState;
use crate::polled_stream::PolledStream;
use std::io;
use std::io::Read;
use std::net::TcpStream;
use std::time::Clock;

/// The reading end of a peer's connection, which records when the peer was heard. Nothing is written on it, so it goes
/// on without blocking while lines come at once.
#[derive(Drop)]
pub struct PeerReader<'a, R> {
    rt: &'a R,
    peer: &'a PeerState,
    stream: PolledStream<'a>,
}

impl<'a, R: Clock> PeerReader<'a, R> {
    pub fn new(rt: &'a R, peer: &'a PeerState, stream: &'a TcpStream) -> PeerReader<'a, R> {
        PeerReader {
            rt,
            peer,
            stream: PolledStream::new(stream),
        }
    }

    /// Reads what comes.
    fn receive(&mut self, buf: &mut [u8]) -> io::Result<usize>
        ensures { IfOk result (λ count. count ≤ length buf.new) }
    {
        if let Some(count) = self.stream.read_soon(buf)? {
            return Ok(count);
        }
        let mut stream = self.stream.blocking()?;
        stream.read(buf)
    }
}

impl<R: Clock> Read for PeerReader<'_, R> {
    fn read(&mut self, buf: &mut [u8]) -> io::Result<usize> {
        let count = self.receive(buf)?;
        if count > 0 {
            self.peer.note_heard(self.rt);
        }
        Ok(count)
    }
}
