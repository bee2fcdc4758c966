//! Sending the lines that wait in the outboxes to the peers.

use crate::limits::handle_limit;
use crate::peer::PeerState;
use crate::peer_writer::{PatientStream, Writing};
use crate::polling::Polling;
use crate::site::{CONNECT_SECONDS, SiteSockets};
use durability::ExitWriter;
use entry_codec::write_line;
use line_streams::write_whole;
use peer_links::{Batch, LineSource, Outbox, write_link};
use rights_types::{Message, SiteId};
use std::alloc::Global;
use std::io::{ErrorKind, Write};
use std::marker::Model;
use std::net::{Net, TcpListener, TcpStream, ToSocketAddrs};
use std::sync::{Condvar, CondvarTimeouts, Mutex, Wait};
use std::thread::{Scope, Threads};
use std::time::{Clock, Duration, Instant};
use std::{io, thread};
use timed_streams::wait_readable;

/// How often a sending thread looks for a line before it sleeps, if it polls: for some 50 microseconds.
const LOOKS: u32 = 150;

/// How many sending threads are running.
#[derive(Drop)]
pub(crate) struct Senders {
    running: Mutex<u64>,
    ended: Condvar,
}

impl Senders {
    pub(crate) fn new() -> Senders {
        Senders {
            running: Mutex::new(0),
            ended: Condvar::new(),
        }
    }

    pub(crate) fn begin<R: Wait>(&self, rt: &R) {
        let mut running = self.running.lock(rt);
        *running = running.saturating_add(1);
    }

    pub(crate) fn finish<R: Wait>(&self, rt: &R) {
        let mut running = self.running.lock(rt);
        *running = running.saturating_sub(1);
        self.ended.notify_all();
    }

    /// Waits until none is running, or the time is over.
    pub(crate) fn wait_for_all<R: Wait + Clock>(&self, rt: &R, time: Duration) {
        let _ = self
            .ended
            .wait_timeout_while(rt, self.running.lock(rt), time, |running| *running > 0);
    }
}

/// The lines of a peer's outbox, which notes when some are about to be written.
#[derive(Drop)]
struct Noted<'a> {
    peer: &'a PeerState,
    polling: Polling,
    /// Held while lines are written.
    writing: Option<Writing<'a>>,
}

impl<'a> Model for Noted<'a> {
    ghost Value = { Unit {0} };

    ghost view = { λ _. tt };
}

impl<'a> Noted<'a> {
    fn new(peer: &'a PeerState) -> Noted<'a> {
        Noted {
            peer,
            polling: Polling::new(),
            writing: None,
        }
    }

    /// Waits for a line that comes soon, unless this wait does not poll.
    fn poll(&mut self) {
        if self.peer.outbox.seems_ready() || !self.polling.is_due() {
            return;
        }
        let found = look(&self.peer.outbox);
        self.polling.note(found);
    }
}

/// Looks for a line again and again. `false` if none came.
fn look(outbox: &Outbox) -> bool {
    for _ in 0..LOOKS {
        if outbox.seems_ready() {
            return true;
        }
        thread::yield_now();
    }
    false
}

impl LineSource for Noted<'_> {
    ghost use Rattle.std.specs.List.{All};
    ghost use Rattle.entry_codec.specs.Pieces.{IsLine};

    type Memory = Global;

    ghost waits = { λ _ lines. All IsLine lines };

    ghost takes = { λ _ line _. IsLine line };

    ghost is_over = { λ _. Unit {0} };

    fn next_batch<R: Wait>(&mut self, rt: &R, room: &mut [u8]) -> Batch<Global> {
        self.writing = None;
        self.poll();
        let batch = (&self.peer.outbox).next_batch(rt, room);
        if !matches!(batch, Batch::Over) {
            self.writing = Some(self.peer.writer.begin(rt));
            self.peer.events.writes();
        }
        batch
    }

    fn take_front<R: Wait>(&mut self, rt: &R, count: usize) {
        (&self.peer.outbox).take_front(rt, count);
        self.writing = None;
    }
}

/// Sends the lines that wait for this peer, until its outbox has ended and is empty. A line taken while there is no
/// connection causes one attempt to connect, and is lost if that fails. It ends too once nothing may be sent any more.
fn send_to<R: Net<Stream = TcpStream> + Wait + Clock + AllocGlobal>(
    rt: &R,
    site: &SiteSockets,
    peer: &PeerState,
) {
    try_address(rt, peer);
    for _ in rt.forever() {
        let Some(line) = peer.outbox.take(rt) else {
            break;
        };
        if peer.is_shut(rt) {
            break;
        }
        let stream = match connect(rt, peer.address.as_str()) {
            Ok(stream) => stream,
            Err(error) => {
                peer.events.sends_no_more(rt, cause_of(&error));
                continue;
            }
        };
        if send_by(rt, site, peer, stream, line) {
            break;
        }
    }
    site.senders.finish(rt);
}

/// Logs it if the peer's address cannot be resolved. If events are not logged, the address is not looked up before a
/// line is sent.
fn try_address<R: Net + Wait>(rt: &R, peer: &PeerState) {
    let address = peer.address.as_str();
    if peer.events.are_logged() && address.to_socket_addrs(rt).is_err() {
        peer.events.has_no_address(rt, address);
    }
}

/// Sends this line and all that wait after it on a connection. `false` if that failed, or the site has ended.
fn send_by<'x, R: Wait + Clock + AllocGlobal>(
    rt: &'x R,
    site: &SiteSockets,
    peer: &'x PeerState,
    mut stream: TcpStream,
    line: Vec<u8>,
) -> bool {
    if !peer.sending.hold(rt, &stream) {
        return false;
    }
    let since = peer.now(rt);
    peer.events.connects(rt);
    peer.events.writes();
    let is_begun = send_hello(
        rt,
        site.id,
        &mut peer.exit(rt, &mut stream),
        line.as_slice(),
    );
    let is_sent = is_begun
        && {
            peer.writer.open(rt, &stream);
            let stream = ProvingStream {
                stream: PatientStream {
                    rt,
                    stream: &stream,
                },
                peer,
                since,
            };
            write_link(rt, &mut peer.exit(rt, stream), &mut Noted::new(peer)).is_ok()
        };
    peer.writer.close(rt);
    peer.sending.release(rt);
    if !is_sent {
        peer.events.breaks(rt, peer.now(rt).saturating_sub(since));
    }
    is_sent
}

/// Writes the first line of a connection, and the line for which it was made. `false` if that fails.
fn send_hello<R: Wait + AllocGlobal, W: Write>(
    rt: &R,
    site: SiteId,
    exit: &mut ExitWriter<'_, R, W>,
    line: &[u8],
) -> bool {
    let Ok(mut text) = write_line(rt.alloc(), &Message::<Global>::Hello(site)) else {
        return false;
    };
    text.extend_from_slice(line).is_ok() && write_whole(exit, text.as_slice()).is_ok()
}

/// A connection to a peer which, while it is on trial, is looked at before each write.
#[derive(Drop)]
struct ProvingStream<'a, R: Wait> {
    stream: PatientStream<'a, R>,
    peer: &'a PeerState,
    /// When it was made.
    since: u64,
}

impl<R: Wait + Clock> ProvingStream<'_, R> {
    /// The peer sends nothing on this connection, so there is something to be read only if it has ended.
    fn prove(&self) -> io::Result<()> {
        if wait_readable(self.stream.stream, 0).is_ok() {
            return Err(io::Error::from(ErrorKind::ConnectionReset));
        }
        let rt = self.stream.rt;
        let time = self.peer.now(rt).saturating_sub(self.since);
        self.peer.events.lasts(rt, time);
        Ok(())
    }
}

impl<R: Wait + Clock> Write for ProvingStream<'_, R> {
    fn write(&mut self, buf: &[u8]) -> io::Result<usize> {
        if self.peer.events.is_on_trial() {
            self.prove()?;
        }
        self.stream.write(buf)
    }

    fn flush(&mut self) -> io::Result<()> {
        Ok(())
    }
}

/// One attempt to connect. The addresses of the name are tried in turn, `CONNECT_SECONDS` in all.
fn connect<R: Net<Stream = TcpStream> + Clock>(rt: &R, address: &str) -> io::Result<TcpStream> {
    let addresses = address.to_socket_addrs(rt)?;
    let since = Instant::now(rt)?;
    let mut last = io::Error::from(ErrorKind::AddrNotAvailable);
    for address in addresses {
        let waited = since.elapsed(rt)?;
        let Some(left) = Duration::from_secs(CONNECT_SECONDS).checked_sub(waited) else {
            break;
        };
        match TcpStream::connect_timeout(rt, &address, left) {
            Ok(stream) => {
                // Lines are sent without delay.
                let _ = stream.set_nodelay(true);
                return Ok(stream);
            }
            Err(error) => last = error,
        }
    }
    Err(last)
}

/// Why there is no connection.
fn cause_of(error: &io::Error) -> &'static str {
    handle_limit(error).unwrap_or("it cannot be connected to")
}

/// Starts the thread that sends to this peer. `false` if it could not be started.
pub fn begin_sender<
    's,
    E,
    R: Net<Listener = TcpListener, Stream = TcpStream>
        + Threads
        + Wait
        + Clock
        + AllocGlobal
        + Sync,
>(scope: &Scope<'s, E>, rt: &'s R, site: &'s SiteSockets, peer: &'s PeerState) -> bool {
    site.senders.begin(rt);
    let is_begun = scope.spawn(move || send_to(rt, site, peer)).is_ok();
    if !is_begun {
        site.senders.finish(rt);
    }
    is_begun
}
