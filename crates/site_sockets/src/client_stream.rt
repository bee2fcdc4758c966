//! The two ends of a client's stream, for the thread that answers its requests. A request begins with a read, and ends
//! with a write; if several are sent at once, the rest of them counts as begun only once more of it is read.
ghost use Rattle.std.specs.Prelude.{◌≡◌, ◌≤◌, length, IfOk, IfSome};

use crate::activity::Phase;
use crate::clients::Clients;
use crate::polled_stream::PolledStream;
use line_streams::{read_some, write_some};
use std::io;
use std::io::{ErrorKind, Read, Write};
use std::net::TcpStream;
use std::sync::Wait;
use std::time::{Clock, Duration};

/// How many milliseconds a client may send nothing between requests.
pub(crate) const IDLE_MILLISECONDS: u64 = 60_000;

/// How many milliseconds a request may take, from its first byte to its last one.
const REQUEST_MILLISECONDS: u64 = 10_000;

/// How many milliseconds a client may take for each piece of its responses.
pub(crate) const RESPONSE_MILLISECONDS: u64 = 10_000;

/// The longest piece of responses that is written at once, in bytes.
const RESPONSE_PIECE: usize = 1_048_576;

/// How many milliseconds a client may take for the response that says that its connection ends.
const LAST_MILLISECONDS: u64 = 100;

/// The reading end of a client's stream. Errors: `TimedOut` if a request took too long, `ConnectionAborted` if the
/// connection was ended for another one, or a request is cut off while the site ends, `OutOfMemory` if there is no memory
/// for the rest of a request.
#[derive(Drop)]
pub struct ClientReader<'a, R> {
    rt: &'a R,
    clients: &'a Clients,
    stream: PolledStream<'a>,
    place: usize,
    /// When the request began that is being read.
    begun: Option<u64>,
    /// How many milliseconds a read of the stream waits.
    time: u64,
}

impl<'a, R: Wait + Clock> ClientReader<'a, R> {
    pub(crate) fn new(
        rt: &'a R,
        clients: &'a Clients,
        stream: &'a TcpStream,
        place: usize,
    ) -> ClientReader<'a, R> {
        ClientReader {
            rt,
            clients,
            stream: PolledStream::new(stream),
            place,
            begun: None,
            time: IDLE_MILLISECONDS,
        }
    }

    /// What its thread waits for now, and for how many milliseconds it may.
    fn wanted(&mut self) -> io::Result<(Phase, u64)> {
        let now = self.clients.now(self.rt)?;
        if self.clients.is_idle(self.place) {
            self.begun = None;
            self.clients.clear(self.rt, self.place);
            return Ok((Phase::Idle(now), IDLE_MILLISECONDS));
        }
        let since = self.begun.unwrap_or(now);
        self.begun = Some(since);
        match REQUEST_MILLISECONDS.checked_sub(now.saturating_sub(since)) {
            Some(left) if left > 0 => Ok((Phase::Receiving(since), left)),
            _ => Err(io::Error::from(ErrorKind::TimedOut)),
        }
    }

    /// Reads what comes soon. `None` if nothing does, or if this read does not poll.
    fn poll(&mut self, buf: &mut [u8]) -> io::Result<Option<usize>>
        ensures { IfOk result (λ found. IfSome found (λ count. count ≤ length buf.new)) }
    {
        if self.clients.is_crowded() {
            return Ok(None);
        }
        let found = self.stream.read_soon(buf);
        // Responses are written to the same stream.
        self.stream.blocking()?;
        found
    }

    /// Waits for input.
    fn wait(&mut self, buf: &mut [u8], left: u64) -> io::Result<usize>
        ensures { IfOk result (λ count. count ≤ length buf.new) }
    {
        let mut stream = self.stream.blocking()?;
        if self.time != left {
            stream.set_read_timeout(Some(Duration::from_millis(left)))?;
            self.time = left;
        }
        // An interrupted call is retried: only a client ends its connection.
        match read_some(&mut stream, buf) {
            Ok(count) => Ok(count),
            Err(_) if self.begun.is_some() => Err(io::Error::from(ErrorKind::TimedOut)),
            Err(_) => Err(io::Error::from(ErrorKind::Other)),
        }
    }

    /// Reads what comes.
    fn receive(&mut self, buf: &mut [u8], left: u64) -> io::Result<usize>
        ensures { IfOk result (λ count. count ≤ length buf.new) }
    {
        match self.poll(buf)? {
            Some(count) => Ok(count),
            None => self.wait(buf, left),
        }
    }

    /// The connection ends, for another one or with the site. Its client has little time for a last response.
    fn give_way(&mut self) -> io::Result<usize>
        ensures { IfOk result (λ count. count ≡ 0) }
    {
        let stream = self.stream.blocking()?;
        stream.set_write_timeout(Some(Duration::from_millis(LAST_MILLISECONDS)))?;
        Err(io::Error::from(ErrorKind::ConnectionAborted))
    }
}

impl<R: Wait + Clock> Read for ClientReader<'_, R> {
    fn read(&mut self, buf: &mut [u8]) -> io::Result<usize> {
        if self.clients.is_done(self.place) {
            return Ok(0);
        }
        let (phase, left) = self.wanted()?;
        if !self.clients.change(self.rt, self.place, phase) {
            return self.give_way();
        }
        let received = self.receive(buf, left);
        if !self.clients.change(self.rt, self.place, Phase::Working) {
            return self.give_way();
        }
        let count = received?;
        if count == 0 && self.begun.is_some() && self.clients.is_ending() {
            // The end of the site may have ended the input as the request began, and not its client.
            return self.give_way();
        }
        if count > 0 && !self.clients.receives(self.rt, self.place, count) {
            return Err(io::Error::from(ErrorKind::OutOfMemory));
        }
        Ok(count)
    }
}

/// The writing end of a client's stream.
#[derive(Drop)]
pub struct ClientWriter<'a, R> {
    rt: &'a R,
    clients: &'a Clients,
    stream: &'a TcpStream,
    place: usize,
    /// When the piece began that is being written, and how many bytes of it were not taken yet.
    piece: Option<(u64, usize)>,
}

impl<'a, R: Wait + Clock> ClientWriter<'a, R> {
    pub(crate) fn new(
        rt: &'a R,
        clients: &'a Clients,
        stream: &'a TcpStream,
        place: usize,
    ) -> ClientWriter<'a, R> {
        ClientWriter {
            rt,
            clients,
            stream,
            place,
            piece: None,
        }
    }

    /// The piece that is written now, of this many bytes at most: when it began, and how many bytes are left of it.
    fn next_piece(&mut self, len: usize) -> io::Result<(u64, usize)>
        ensures { IfOk result (λ piece. piece.1 ≤ len) }
    {
        let now = self.clients.now(self.rt)?;
        let Some((since, left)) = self.piece else {
            return Ok((now, len.min(RESPONSE_PIECE)));
        };
        match RESPONSE_MILLISECONDS.checked_sub(now.saturating_sub(since)) {
            Some(time) if time > 0 => {
                self.stream
                    .set_write_timeout(Some(Duration::from_millis(time)))?;
                Ok((since, left.min(len)))
            }
            _ => Err(io::Error::from(ErrorKind::TimedOut)),
        }
    }

    /// Notes how much of a piece was taken.
    fn note(&mut self, since: u64, len: usize, count: usize) {
        if count < len {
            self.piece = Some((since, len - count));
        } else if self.piece.is_some() {
            self.piece = None;
            let time = Duration::from_millis(RESPONSE_MILLISECONDS);
            let _ = self.stream.set_write_timeout(Some(time));
        }
    }
}

impl<R: Wait + Clock> Write for ClientWriter<'_, R> {
    fn write(&mut self, buf: &[u8]) -> io::Result<usize> {
        let (since, len) = self.next_piece(buf.len())?;
        self.clients
            .change(self.rt, self.place, Phase::Sending(since));
        let mut stream = self.stream;
        let count = write_some(&mut stream, &buf[..len]);
        self.clients.change(self.rt, self.place, Phase::Working);
        self.clients.set_idle(self.place, true);
        self.note(since, len, count);
        Ok(count)
    }

    fn flush(&mut self) -> io::Result<()> {
        Ok(())
    }
}
