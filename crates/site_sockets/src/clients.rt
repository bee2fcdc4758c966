//! Client connections: accepting them, and what ends them.
ghost use Rattle.std.specs.Prelude.{◌≡◌, map, is_some, IfOk};
ghost use Rattle.std.specs.String.{string_bytes};

use crate::activity::{Activity, Phase};
use crate::budget::{Budget, Share};
use crate::client_stream::{ClientReader, ClientWriter, IDLE_MILLISECONDS, RESPONSE_MILLISECONDS};
use crate::connection_pool::{ConnectionPool, NoPlace};
use crate::deadline_reader::DeadlineReader;
use crate::exits::shared;
use crate::listening::Listening;
use crate::stopwatch::Stopwatch;
use crossbeam_utils::CachePadded;
use durability::{Durability, ExitWriter};
use log_lines::LogQueue;
use rights_types::OutOfMemory;
use site_metrics::CLIENTS;
use site_words::Config;
use std::alloc::{AllocError, Global};
use std::io;
use std::io::Read;
use std::net::{Shutdown, TcpStream};
use std::sync::atomic::{AtomicBool, Ordering};
use std::sync::{Arc, Wait};
use std::time::{Clock, Duration};

/// How many connections may be closing at a time: those that are turned away, and those that have got their last
/// response. A further one that would be turned away is closed.
const CLOSING: usize = 192;

/// For how many seconds input is still read from a client that is turned away, or that has got its last response.
const LAST_READ_SECONDS: u64 = 1;

/// How many milliseconds a connection waits at least before it ends for another one, and how long a new one waits for
/// a place if none has waited so long.
const YOUNG_MILLISECONDS: u64 = 50;

/// How many milliseconds a new connection waits for the place of one that was ended for it.
const HANDOVER_MILLISECONDS: u64 = 1_000;

/// The place of a client that is served.
#[derive(Clone, Copy, Debug)]
pub struct ClientPlace {
    index: usize,
}

impl ClientPlace {
    /// 0 to `CLIENTS` - 1.
    pub fn index(&self) -> usize {
        self.index
    }
}

/// The place of a connection that is closing.
#[derive(Clone, Copy, Debug)]
pub struct ClosingPlace {
    index: usize,
}

/// A connection, and the place that it has.
#[derive(Drop)]
pub enum Accepted {
    Client(TcpStream, ClientPlace),
    /// No place of a client was free.
    TurnedAway(TcpStream, ClosingPlace),
}

/// What is known of the connection at a place.
#[derive(Drop)]
struct Watched {
    activity: Activity,
    share: Share,
}

/// Accepts the connections of clients.
#[derive(Drop)]
pub struct Clients {
    listening: Listening,
    /// Where it is logged that clients are turned away, if it is.
    log: Option<Arc<LogQueue>>,
    /// `None` without a journal.
    durability: Option<Arc<Durability>>,
    /// The names of the host to which the site answers, besides `localhost`.
    pub hosts: Vec<String>,
    stopwatch: Stopwatch,
    pool: ConnectionPool,
    /// What is known of each connection in it. Its own thread changes that again and again.
    watched: Vec<CachePadded<Watched>>,
    budget: Budget,
    closing: ConnectionPool,
    /// Whether the last connection was turned away.
    is_full: AtomicBool,
}

impl Clients {
    pub(crate) fn new(
        alloc: Global,
        listening: Listening,
        stopwatch: Stopwatch,
        config: &Config,
        log: Option<Arc<LogQueue>>,
        durability: Option<Arc<Durability>>,
    ) -> Result<Clients, OutOfMemory>
        ensures { IfOk result (λ clients. map string_bytes clients.hosts.items ≡ config.now.options.hosts) }
    {
        let mut watched = Vec::with_capacity(alloc, CLIENTS)?;
        for _ in 0..CLIENTS {
            watched.push(CachePadded::new(Watched {
                activity: Activity::new(),
                share: Share::new(),
            }))?;
        }
        Ok(Clients {
            listening,
            log,
            durability,
            hosts: copies_of(alloc, config.hosts())?,
            stopwatch,
            pool: ConnectionPool::new(alloc, CLIENTS)?,
            watched,
            budget: Budget::new(),
            closing: ConnectionPool::new(alloc, CLOSING)?,
            is_full: AtomicBool::new(false),
        })
    }

    /// How many clients are connected, 0 to `CLIENTS`.
    pub fn count<R: Wait>(&self, rt: &R) -> usize {
        self.pool.count(rt)
    }

    /// The next connection that gets a place. `None` once the site ends.
    pub fn next<R: Wait + Clock>(&self, rt: &R) -> Option<Accepted> {
        for _ in rt.forever() {
            if self.pool.is_closed(rt) {
                return None;
            }
            if let Some(accepted) = self.admit(rt) {
                return Some(accepted);
            }
        }
        unreachable!()
    }

    /// A connection that comes soon, and gets a place.
    fn admit<R: Wait + Clock>(&self, rt: &R) -> Option<Accepted> {
        let stream = self.listening.look(rt)?;
        prepare(&stream).ok()?;
        let why = match self.enter(rt, &stream) {
            Ok(place) => {
                self.is_full.store(false, Ordering::Relaxed);
                return Some(Accepted::Client(stream, place));
            }
            Err(why) => why,
        };
        self.note_turned_away(rt, &stream, why);
        let index = self.closing.enter(rt, &stream).ok()?;
        Some(Accepted::TurnedAway(stream, ClosingPlace { index }))
    }

    /// A place for a new connection. If all are taken, the connection that has waited longest ends for it.
    fn enter<R: Wait + Clock>(&self, rt: &R, stream: &TcpStream) -> Result<ClientPlace, NoPlace> {
        for _ in 0..2 {
            match self.enter_free(rt, stream) {
                Err(NoPlace::Taken) => {}
                entered => return entered,
            }
            let time = if self.end_longest(rt) {
                HANDOVER_MILLISECONDS
            } else {
                YOUNG_MILLISECONDS
            };
            self.pool.wait_for_place(rt, Duration::from_millis(time));
        }
        self.enter_free(rt, stream)
    }

    /// A free place for a new connection.
    fn enter_free<R: Wait + Clock>(
        &self,
        rt: &R,
        stream: &TcpStream,
    ) -> Result<ClientPlace, NoPlace> {
        let index = self.pool.enter(rt, stream)?;
        if let Some(watched) = self.watched.get(index) {
            watched.activity.begin(rt, self.now(rt).unwrap_or(0));
        }
        Ok(ClientPlace { index })
    }

    /// Ends the connection that has waited longest, idle ones first. `false` if none has waited long enough.
    fn end_longest<R: Wait + Clock>(&self, rt: &R) -> bool {
        let Ok(now) = self.now(rt) else {
            return false;
        };
        let (place, phase) = self.longest(rt, now);
        let Some(watched) = self.watched.get(place) else {
            return false;
        };
        if phase.rank().is_none() || !watched.activity.end(rt, phase) {
            return false;
        }
        // A connection that waits for input still gets a response.
        let how = match phase {
            Phase::Sending(_) => Shutdown::Both,
            _ => Shutdown::Read,
        };
        self.pool.shut_down(rt, place, how);
        true
    }

    /// The place of the connection that ends first for a new one, of those that have waited long enough, and what its
    /// thread waits for; `Working` if there is none.
    fn longest<R: Wait>(&self, rt: &R, now: u64) -> (usize, Phase) {
        let mut longest = (0, Phase::Working);
        for place in 0..self.watched.len() {
            let phase = self.watched[place].activity.phase(rt);
            if phase.age(now) >= YOUNG_MILLISECONDS && phase.goes_before(longest.1, now) {
                longest = (place, phase);
            }
        }
        longest
    }

    fn note_turned_away<R: Wait>(&self, rt: &R, stream: &TcpStream, why: NoPlace) {
        if self.is_full.swap(true, Ordering::Relaxed) {
            return;
        }
        let (Some(log), Ok(address)) = (&self.log, stream.peer_addr()) else {
            return;
        };
        match why {
            NoPlace::Taken => log.put(
                rt,
                format_args!(
                    "client {}: turned away: {} clients are connected",
                    address, CLIENTS
                ),
            ),
            NoPlace::NoHandle => log.put(
                rt,
                format_args!(
                    "client {}: turned away: the system gives the process no further handle",
                    address
                ),
            ),
            NoPlace::Closed => {}
        }
    }

    /// The reading end of the stream of the client at this place.
    pub fn reader<'a, R: Wait + Clock>(
        &'a self,
        rt: &'a R,
        stream: &'a TcpStream,
        place: &ClientPlace,
    ) -> ClientReader<'a, R> {
        ClientReader::new(rt, self, stream, place.index)
    }

    /// The writing end of the stream of the client at this place, an exit.
    pub fn writer<'a, R: Wait + Clock>(
        &'a self,
        rt: &'a R,
        stream: &'a TcpStream,
        place: &ClientPlace,
    ) -> ExitWriter<'a, R, ClientWriter<'a, R>>
        ensures { is_some result.durability ≡ is_some self.now.durability }
    {
        let writer = ClientWriter::new(rt, self, stream, place.index);
        ExitWriter::new(rt, shared(&self.durability), writer)
    }

    /// No thread could be started for a connection.
    pub fn note_no_thread<R: Wait + Clock>(&self, rt: &R) {
        self.listening.note_no_thread(rt);
    }

    /// Frees the place of a client.
    pub fn leave<R: Wait>(&self, rt: &R, place: ClientPlace) {
        if let Some(watched) = self.watched.get(place.index) {
            watched.activity.change(rt, Phase::Working);
            self.budget.clear(rt, &watched.share);
        }
        self.pool.leave(rt, place.index);
    }

    /// Frees the place of a client that is turned away.
    pub fn leave_closing<R: Wait>(&self, rt: &R, place: ClosingPlace) {
        self.closing.leave(rt, place.index);
    }

    /// Closes the connection of a client that has got its last response, and frees its place: that comes first, since
    /// a client may connect again before it closes this connection. If too many connections are closing, the client
    /// may lose the response.
    pub fn finish<R: Wait + Clock>(&self, rt: &R, stream: &TcpStream, place: ClientPlace) {
        let closing = self.closing.enter(rt, stream);
        self.leave(rt, place);
        if let Ok(index) = closing {
            self.finish_closing(rt, stream, ClosingPlace { index });
        }
    }

    /// Closes the connection of a client that is turned away, and frees its place.
    pub fn finish_closing<R: Wait + Clock>(&self, rt: &R, stream: &TcpStream, place: ClosingPlace) {
        close_gracefully(rt, stream, &place);
        self.leave_closing(rt, place);
    }

    /// Accepts no further client, and lets no further request begin. Waits until the requests that have begun are
    /// answered, or the time is over.
    pub(crate) fn end<R: Wait + Clock>(&self, rt: &R, time: Duration) {
        self.pool.end(rt);
        self.closing.end(rt);
        self.pool.wait_until_empty(rt, time);
    }

    /// Shuts down the connections of all clients.
    pub(crate) fn close<R: Wait>(&self, rt: &R) {
        self.pool.close(rt);
        self.closing.close(rt);
    }
}

/// What the thread of a connection asks and tells.
impl Clients {
    /// How many milliseconds it is since the site began.
    pub(crate) fn now<R: Clock>(&self, rt: &R) -> io::Result<u64> {
        self.stopwatch.read(rt)
    }

    pub(crate) fn is_crowded(&self) -> bool {
        self.pool.is_crowded()
    }

    pub(crate) fn is_idle(&self, place: usize) -> bool {
        self.pool.is_idle(place)
    }

    pub(crate) fn is_ending(&self) -> bool {
        self.pool.is_ending()
    }

    pub(crate) fn is_done(&self, place: usize) -> bool {
        self.pool.is_done(place)
    }

    pub(crate) fn set_idle(&self, place: usize, is_idle: bool) {
        self.pool.set_idle(place, is_idle);
    }

    /// The thread at this place waits for this from now on. `false` if its connection was ended.
    pub(crate) fn change<R: Wait>(&self, rt: &R, place: usize, next: Phase) -> bool {
        match self.watched.get(place) {
            Some(watched) => watched.activity.change(rt, next),
            None => false,
        }
    }

    /// A request has begun or goes on with so many bytes. `false` if there is no memory for them.
    pub(crate) fn receives<R: Wait>(&self, rt: &R, place: usize, count: usize) -> bool {
        self.pool.set_idle(place, false);
        match self.watched.get(place) {
            Some(watched) => self.budget.receive(rt, &watched.share, count),
            None => false,
        }
    }

    /// The client at this place has taken all responses.
    pub(crate) fn clear<R: Wait>(&self, rt: &R, place: usize) {
        if let Some(watched) = self.watched.get(place) {
            self.budget.clear(rt, &watched.share);
        }
    }

    /// Whether there is memory for a response that has this many bytes so far.
    pub fn has_room<R: Wait>(&self, rt: &R, place: usize, len: usize) -> bool {
        match self.watched.get(place) {
            Some(watched) => self.budget.respond(rt, &watched.share, len),
            None => true,
        }
    }
}

/// Copies of these texts.
fn copies_of(alloc: Global, texts: &[String]) -> Result<Vec<String>, AllocError>
    ensures { IfOk result (λ copies. map string_bytes copies.items ≡ map string_bytes texts.now) }
{
    let mut copies = Vec::with_capacity(alloc, texts.len())?;
    for text in texts {
        copies.push(String::from_str(alloc, text.as_str())?)?;
    }
    Ok(copies)
}

/// Sets the stream to send replies without delay, and not to wait for the client for longer than it may take.
fn prepare(stream: &TcpStream) -> io::Result<()> {
    stream.set_nodelay(true)?;
    stream.set_read_timeout(Some(Duration::from_millis(IDLE_MILLISECONDS)))?;
    stream.set_write_timeout(Some(Duration::from_millis(RESPONSE_MILLISECONDS)))
}

/// A stream of a client that is turned away: it is read for a second at most, however slowly its bytes arrive.
pub fn bounded_reader<'a, R: Clock>(
    rt: &'a R,
    stream: &'a TcpStream,
) -> io::Result<DeadlineReader<'a, R>> {
    DeadlineReader::new(rt, stream, Duration::from_secs(LAST_READ_SECONDS))
}

/// Ends the output, and discards input for a second at most: closing a stream with unread input would destroy the
/// output that was sent last.
fn close_gracefully<R: Clock>(rt: &R, stream: &TcpStream, _place: &ClosingPlace) {
    if stream.shutdown(Shutdown::Write).is_err() {
        return;
    }
    let Ok(mut reader) = DeadlineReader::new(rt, stream, Duration::from_secs(LAST_READ_SECONDS))
    else {
        return;
    };
    let mut room = [0; 4096];
    for _ in 0..u64::MAX {
        match reader.read(&mut room) {
            Ok(0) | Err(_) => return,
            Ok(_) => {}
        }
    }
}
