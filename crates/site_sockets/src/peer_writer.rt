//! The writing end of a connection with a peer.
ghost use Rattle.std.specs.Prelude.{◌≡◌, ℕ, ◌<◌, ◌++◌, ◌⊎◌, IfOk, IsTrue, IsFalse, take, drop};
ghost use Rattle.std.specs.Io.KnownBytes.{Appends};

use line_streams::{write_some, write_whole};
use peer_links::Outbox;
use rights_types::OutOfMemory;
use std::alloc::Global;
use std::io;
use std::io::{ErrorKind, Write};
use std::net::{Shutdown, TcpStream};
use std::sync::{Mutex, MutexGuard, Wait};
use std::time::Duration;

/// How long a write blocks while the peer reads nothing, in milliseconds.
const MAX_BLOCK: u64 = 5;

/// The connection on which lines are sent to a peer. Its sending thread writes the lines of the outbox. While none
/// waits there, another thread may write a line itself, which saves the time of handing it over. Each line is written
/// whole before the next one begins.
#[derive(Drop)]
pub(crate) struct PeerWriter {
    state: Mutex<State>,
}

#[derive(Drop)]
struct State {
    /// `None` if there is no connection.
    stream: Option<TcpStream>,
    /// What is left of a line, whose start was written before the peer's buffers were full.
    rest: Vec<u8>,
}

impl State {
    /// Writes this line, but does not wait long. `false` if it was not written whole: the sending thread is to write it
    /// again.
    fn write_now(&mut self, line: &[u8]) -> bool {
        let Some(mut stream) = self.stream.as_ref() else {
            return false;
        };
        match write_once(&mut stream, line, &mut self.rest) {
            Ok(is_whole) => is_whole,
            Err(OutOfMemory) => {
                // The line must not be continued by another one.
                let _ = stream.shutdown(Shutdown::Both);
                false
            }
        }
    }

    /// Writes what is left of a line.
    fn write_rest<R: Wait>(&mut self, rt: &R) {
        if let Some(stream) = &self.stream {
            // If it fails, so does the next write.
            let _ = write_whole(&mut PatientStream { rt, stream }, &self.rest);
        }
        self.rest.clear();
    }
}

/// Writes a line, as far as one write takes it, and returns whether that was all of it. Of a line that was begun the
/// rest is added to `rest`; `OutOfMemory` if that has no memory.
fn write_once<W: Write>(
    writer: &mut W,
    line: &[u8],
    rest: &mut Vec<u8>,
) -> Result<bool, OutOfMemory>
    ensures whole { IfOk result (λ is_whole. IsTrue is_whole
        → Appends (W.contents writer.old) (W.contents writer.new) line.now × (rest.new.items ≡ rest.old.items)) }
    ensures part { IfOk result (λ is_whole. IsFalse is_whole → (n : ℕ)
        × Appends (W.contents writer.old) (W.contents writer.new) (take n line.now)
        × ((n ≡ 0) × (rest.new.items ≡ rest.old.items)
        ⊎ (0 < n) × (rest.new.items ≡ rest.old.items ++ drop n line.now))) }
{
    let count = write_some(writer, line);
    if count == line.len() {
        return Ok(true);
    }
    if count > 0 {
        rest.extend_from_slice(&line[count..])?;
    }
    Ok(false)
}

/// The sole right to write on the connection, until it is dropped.
#[derive(Drop)]
pub(crate) struct Writing<'a> {
    _state: MutexGuard<'a, State>,
}

impl PeerWriter {
    pub(crate) fn new(alloc: Global) -> PeerWriter {
        PeerWriter {
            state: Mutex::new(State {
                stream: None,
                rest: Vec::new(alloc),
            }),
        }
    }

    /// Lines are sent on this connection from now on. If the system gives no second handle of it, only the sending
    /// thread writes.
    pub(crate) fn open<R: Wait>(&self, rt: &R, stream: &TcpStream) {
        let time = Duration::from_millis(MAX_BLOCK);
        let mut state = self.state.lock(rt);
        state.rest.clear();
        state.stream = match stream.set_write_timeout(Some(time)) {
            Ok(()) => stream.try_clone().ok(),
            Err(_) => None,
        };
    }

    /// The connection has ended.
    pub(crate) fn close<R: Wait>(&self, rt: &R) {
        self.state.lock(rt).stream = None;
    }

    /// For the sending thread, before it writes lines of the outbox.
    pub(crate) fn begin<'a, R: Wait>(&'a self, rt: &R) -> Writing<'a> {
        let mut state = self.state.lock(rt);
        if !state.rest.is_empty() {
            state.write_rest(rt);
        }
        Writing { _state: state }
    }

    /// Writes a line at once, for a thread that holds no lock. `false` if it is to go by way of the outbox: lines wait
    /// there or it has ended, or the sending thread writes, or the connection takes no more, or there is none.
    pub(crate) fn write_now<R: Wait>(&self, rt: &R, outbox: &Outbox, line: &[u8]) -> bool {
        if outbox.seems_ready() {
            return false;
        }
        let Some(mut state) = self.state.try_lock() else {
            return false;
        };
        let state = &mut *state;
        // Looked at under the lock, without which no line of the outbox is written.
        state.rest.is_empty() && outbox.len(rt) == 0 && state.write_now(line)
    }
}

/// A stream whose writes block until the peer takes something.
#[derive(Drop)]
pub(crate) struct PatientStream<'a, R: Wait> {
    pub(crate) rt: &'a R,
    pub(crate) stream: &'a TcpStream,
}

impl<R: Wait> Write for PatientStream<'_, R> {
    fn write(&mut self, buf: &[u8]) -> io::Result<usize> {
        let mut stream = self.stream;
        for _ in self.rt.forever() {
            match stream.write(buf) {
                Err(error) if error.kind() == ErrorKind::WouldBlock => {}
                done => return done,
            }
        }
        unreachable!()
    }

    fn flush(&mut self) -> io::Result<()> {
        Ok(())
    }
}
