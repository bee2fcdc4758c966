//! What a site keeps for each other site.
ghost use Rattle.std.specs.Prelude.{◌≡◌, ◌≤◌, false, is_some, IsSome};
ghost use Rattle.peer_links.specs.declared.outbox.TheConstants.{OUTBOX_LINES};
ghost use Rattle.entry_codec.specs.Pieces.{IsLine};
ghost use Rattle.peer_links.specs.Outboxes.{PutsIf};

use crate::connection_slot::ConnectionSlot;
use crate::events::LinkEvents;
use crate::exits::{share_of, shared};
use crate::peer_writer::PeerWriter;
use crate::shutdown_handle::ShutdownHandle;
use crate::stopwatch::Stopwatch;
use durability::{Durability, ExitWriter};
use histories::History;
use log_lines::LogQueue;
use peer_links::{OUTBOX_LINES, Outbox, OutboxLines};
use rights_types::{MAX_HELD, OutOfMemory, SiteId};
use site_words::Config;
use std::alloc::Global;
use std::io::Write;
use std::marker::Model;
use std::sync::atomic::{AtomicBool, AtomicU64, Ordering};
use std::sync::{Arc, Wait};
use std::time::{Clock, Duration};

/// The longest time that a tick waits for a peer to take the lines of earlier ticks, in milliseconds.
const MAX_STALL: u64 = 50;

/// Another site, shared by the threads that serve it.
#[derive(Drop)]
pub struct PeerState {
    pub site: SiteId,
    /// The address on which it listens.
    pub(crate) address: String,
    pub(crate) outbox: Outbox,
    /// The connection on which lines are sent to it, for the threads that write on it.
    pub(crate) writer: PeerWriter,
    /// The same connection, for the thread that shuts it down.
    pub(crate) sending: ShutdownHandle,
    /// `None` without a journal.
    durability: Option<Arc<Durability>>,
    /// The connections that it opened.
    pub connection_slot: ConnectionSlot,
    /// What happened on the links with it.
    pub events: LinkEvents,
    /// The state of the buffer after the last line, in one word, since the reading thread records it after each line:
    /// twice the number of held entries, and 1 more if entries are missing.
    buffer: AtomicU64,
    stopwatch: Stopwatch,
    /// When something was last read of it, in milliseconds since the site began; 0 if nothing was.
    heard: AtomicU64,
    /// Whether a tick waited in vain until the lines in the outbox are sent, and they were not sent since.
    stalled: AtomicBool,
}

impl PeerState {
    fn new(
        alloc: Global,
        site: SiteId,
        address: &str,
        stopwatch: Stopwatch,
        log: Option<Arc<LogQueue>>,
        durability: Option<Arc<Durability>>,
    ) -> Result<PeerState, OutOfMemory> {
        Ok(PeerState {
            site,
            address: String::from_str(alloc, address)?,
            outbox: Outbox::new(alloc)?,
            writer: PeerWriter::new(alloc),
            sending: ShutdownHandle::new(),
            durability,
            connection_slot: ConnectionSlot::new(),
            events: LinkEvents::new(site, log),
            buffer: AtomicU64::new(0),
            stopwatch,
            heard: AtomicU64::new(0),
            stalled: AtomicBool::new(false),
        })
    }

    /// Locks the lines that wait for it, for putting more. Waits until no other thread holds the lock.
    pub fn lines<'a, R: Wait>(&'a self, rt: &R) -> PeerLines<'a> {
        PeerLines {
            lines: self.outbox.lock(rt),
            events: &self.events,
        }
    }

    /// Writes this line at once if no line waits to be sent. `false` if it was not written, and is to be put into the
    /// outbox: always so with a journal, since only the sending thread waits until records are durable. The caller
    /// holds no lock, since a write may take 5 milliseconds.
    pub fn write_now<R: Wait>(&self, rt: &R, line: &[u8]) -> bool
        ensures { IsSome self.now.durability → result ≡ false }
    {
        self.durability.is_none() && self.writer.write_now(rt, &self.outbox, line)
    }

    /// The exit to the peer, on a connection.
    pub(crate) fn exit<'a, R: Wait, W: Write>(
        &'a self,
        rt: &'a R,
        stream: W,
    ) -> ExitWriter<'a, R, W>
        ensures { is_some result.durability ≡ is_some self.now.durability }
    {
        ExitWriter::new(rt, shared(&self.durability), stream)
    }

    /// Whether nothing may be sent to it any more, since the records that the site made will not be durable.
    pub(crate) fn is_shut<R: Wait>(&self, rt: &R) -> bool {
        match &self.durability {
            Some(durability) => durability.is_shut(rt, &mut History::new()),
            None => false,
        }
    }

    /// Makes room in the outbox for the lines that are due, if the peer takes those that wait there: blocks until these
    /// are sent, for `MAX_STALL` milliseconds at most. Does not block again until they are, nor while the peer cannot
    /// be connected to. `due` returns how many lines are due, and is called only if some wait.
    pub fn make_room<R: Wait + Clock, F: FnOnce() -> usize + Drop>(&self, rt: &R, due: F)
        requires { F.pre due }
    {
        let waiting = self.waiting(rt);
        if waiting == 0 || due() <= OUTBOX_LINES - waiting {
            self.stalled.store(false, Ordering::Relaxed);
        } else if !self.stalled.load(Ordering::Relaxed) && !self.events.cannot_send() {
            let time = Duration::from_millis(MAX_STALL);
            let is_sent = self.outbox.wait_until_empty(rt, time);
            self.stalled.store(!is_sent, Ordering::Relaxed);
        }
    }

    /// How many lines wait to be sent, 0 to `OUTBOX_LINES`.
    pub fn waiting<R: Wait>(&self, rt: &R) -> usize
        ensures { result ≤ OUTBOX_LINES }
    {
        self.outbox.len(rt)
    }

    /// Records the state of the peer's buffer after a line: whether entries are missing, and how many are held.
    pub fn note_buffer(&self, missing: bool, held: usize) {
        let held = held.min(MAX_HELD) as u64;
        self.buffer
            .store(2 * held + missing as u64, Ordering::Relaxed);
    }

    /// The state of the peer's buffer after the last line: whether entries are missing, and how many are held.
    pub fn buffer(&self) -> (bool, usize) {
        let word = self.buffer.load(Ordering::Relaxed);
        (word % 2 == 1, (word / 2) as usize)
    }

    /// Records that something was read of it.
    pub(crate) fn note_heard<R: Clock>(&self, rt: &R) {
        self.heard.store(self.now(rt), Ordering::Relaxed);
    }

    /// For how many milliseconds nothing has been read of it. A peer of which nothing was read yet counts from the start
    /// of the site.
    pub fn unheard<R: Clock>(&self, rt: &R) -> u64 {
        self.now(rt)
            .saturating_sub(self.heard.load(Ordering::Relaxed))
    }

    /// How many milliseconds it is since the site began.
    pub(crate) fn now<R: Clock>(&self, rt: &R) -> u64 {
        self.stopwatch.read(rt).unwrap_or(0)
    }

    /// Closes every stream, and lets no other be opened.
    pub(crate) fn close<R: Wait>(&self, rt: &R) {
        self.outbox.abandon(rt);
        self.sending.close(rt);
        self.connection_slot.close(rt);
    }
}

/// The lines that wait for one peer, under the lock of its outbox.
#[derive(Drop)]
pub struct PeerLines<'a> {
    lines: OutboxLines<'a>,
    events: &'a LinkEvents,
}

impl<'a> Model for PeerLines<'a> {
    ghost use Rattle.peer_links.specs.Outboxes.{Waiting};

    ghost Value = { Waiting };

    ghost view = { λ peer. peer.lines };
}

impl PeerLines<'_> {
    /// Puts a line after the others. `false` if the outbox is full or has ended; then the line is lost.
    pub fn put(&mut self, line: Vec<u8>) -> bool
        requires { IsLine line.items }
        ensures { PutsIf self.old line.items result self.new }
    {
        match self.lines.put(line) {
            Ok(()) => true,
            Err(_) => {
                self.events.drops_line();
                false
            }
        }
    }
}

/// All peers, in the order of the sites.
pub(crate) fn peers_of(
    alloc: Global,
    config: &Config,
    stopwatch: Stopwatch,
    log: &Arc<LogQueue>,
    durability: &Option<Arc<Durability>>,
) -> Result<Vec<PeerState>, OutOfMemory> {
    let mut peers = Vec::new(alloc);
    for peer in config.peers() {
        let log = event_log(config, log)?;
        let (site, address) = (peer.site(), peer.address());
        let durability = share_of(durability)?;
        peers.push(PeerState::new(alloc, site, address, stopwatch, log, durability)?)?;
    }
    Ok(peers)
}

/// The log, if the configuration says that events are logged.
pub(crate) fn event_log(
    config: &Config,
    log: &Arc<LogQueue>,
) -> Result<Option<Arc<LogQueue>>, OutOfMemory> {
    if !config.log() {
        return Ok(None);
    }
    Ok(Some(log.clone()?))
}
