//! What the threads of a site share, besides its desk.
ghost use Rattle.std.specs.Prelude.{◌≡◌, is_some, IfSome};

use crate::clients::Clients;
use crate::entrance::{Entrance, entrances_of};
use crate::exits::{share_of, shared};
use crate::listening::{Listening, listen};
use crate::peer::{PeerState, event_log, peers_of};
use crate::sending::Senders;
use crate::site_clock::SiteClock;
use crate::stopwatch::Stopwatch;
use crate::tick_notifier::TickNotifier;
use durability::Durability;
use log_lines::LogQueue;
use rights_types::{OutOfMemory, SiteId};
use site_metrics::Counters;
use site_words::{Config, SiteFault};
use std::alloc::Global;
use std::net::{Net, TcpListener, TcpStream};
use std::sync::atomic::{AtomicBool, Ordering};
use std::sync::{Arc, Wait};
use std::time::{Clock, Duration};

/// How many seconds an attempt to connect may take.
pub(crate) const CONNECT_SECONDS: u64 = 1;

/// For how many seconds requests that have begun are still answered after the last command.
const LAST_REPLIES_SECONDS: u64 = 1;

/// For how many seconds after that lines that wait are still written.
const LAST_LINES_SECONDS: u64 = 1;

/// What the threads of a site share, besides its desk.
#[derive(Drop)]
pub struct SiteSockets {
    pub(crate) id: SiteId,
    /// The addresses at which peers connect.
    pub(crate) entrances: Vec<Entrance>,
    /// The peers, in the order of the sites.
    peers: Vec<PeerState>,
    pub(crate) senders: Senders,
    /// Accepts clients, if any may connect.
    pub clients: Option<Clients>,
    pub tick_notifier: TickNotifier,
    /// The site's own clock, if it ticks by itself.
    pub clock: Option<SiteClock>,
    /// After how many milliseconds in which nothing was read of it a peer counts as silent. `None` if never.
    pub silent_after: Option<u64>,
    /// Whether events are logged.
    pub logs_events: bool,
    /// Counters of the commands that were answered.
    pub commands: Counters,
    /// The log lines that wait to be written.
    pub log: Arc<LogQueue>,
    /// Whether a memory request of an applier was refused.
    out_of_memory: AtomicBool,
    /// `None` without a journal.
    durability: Option<Arc<Durability>>,
    /// Whether all connections were shut down.
    is_over: AtomicBool,
}

impl SiteSockets {
    /// A site that listens for peers, and for clients if the configuration says so. With a journal nothing is written
    /// to them before all records made by then are durable. Errors: `CannotListen`, `OutOfMemory`.
    pub fn open<R: Net<Listener = TcpListener, Stream = TcpStream> + Clock + AllocGlobal>(
        rt: &R,
        config: &Config,
        durability: Option<Arc<Durability>>,
    ) -> Result<SiteSockets, SiteFault> {
        let Ok(stopwatch) = Stopwatch::start(rt) else {
            return Err(SiteFault::CannotListen);
        };
        let log = Arc::new(rt.alloc(), LogQueue::new(rt.alloc())?)?;
        let entrances = entrances_of(rt, config, stopwatch, &log)?;
        let clients = clients_of(rt, config, stopwatch, &log, &durability)?;
        Ok(SiteSockets::new(
            rt.alloc(),
            config,
            stopwatch,
            entrances,
            clients,
            log,
            durability,
        )?)
    }

    fn new(
        alloc: Global,
        config: &Config,
        stopwatch: Stopwatch,
        entrances: Vec<Entrance>,
        clients: Option<Clients>,
        log: Arc<LogQueue>,
        durability: Option<Arc<Durability>>,
    ) -> Result<SiteSockets, OutOfMemory> {
        Ok(SiteSockets {
            id: config.id(),
            entrances,
            peers: peers_of(alloc, config, stopwatch, &log, &durability)?,
            senders: Senders::new(),
            clients,
            tick_notifier: TickNotifier::new(),
            clock: config.tick().map(|_| SiteClock::new()),
            silent_after: config.silent_after(),
            logs_events: config.log(),
            commands: Counters::new(),
            log,
            out_of_memory: AtomicBool::new(false),
            durability,
            is_over: AtomicBool::new(false),
        })
    }

    /// Logs the addresses on which the site listens, if logging is on.
    pub fn announce<R: Wait>(&self, rt: &R, config: &Config) {
        if !config.log() {
            return;
        }
        let (id, sites) = (config.id().number(), config.sites());
        let listen = config.listen().unwrap_or("an address for each peer");
        match config.http() {
            Some(http) => self.log.put(
                rt,
                format_args!(
                    "site {} of {} listens on {}, http on {}",
                    id, sites, listen, http
                ),
            ),
            None => self.log.put(
                rt,
                format_args!("site {} of {} listens on {}", id, sites, listen),
            ),
        }
        for entrance in config.entrances() {
            let (site, address) = (entrance.site().number(), entrance.address());
            self.log.put(
                rt,
                format_args!("site {} is let in on {} only", site, address),
            );
        }
    }

    /// How far the site's records are durable. `None` without a journal.
    pub fn durability(&self) -> Option<&Durability>
        ensures { is_some result ≡ is_some self.now.durability }
    {
        shared(&self.durability)
    }

    /// The peers, in the order of the sites.
    pub fn peers(&self) -> &[PeerState] {
        self.peers.as_slice()
    }

    /// The peer with this number. `None` if it is not a peer.
    pub fn peer(&self, site: SiteId) -> Option<&PeerState>
        ensures { IfSome result (λ peer. peer.now.site ≡ site) }
    {
        self.peers.iter().find(|peer| peer.site == site)
    }

    /// How many clients are connected.
    pub fn client_count<R: Wait>(&self, rt: &R) -> usize {
        match &self.clients {
            Some(clients) => clients.count(rt),
            None => 0,
        }
    }

    /// Whether there is memory for a response to the client at this place that has so many bytes so far.
    pub fn has_room<R: Wait>(&self, rt: &R, place: usize, len: usize) -> bool {
        match &self.clients {
            Some(clients) => clients.has_room(rt, place, len),
            None => true,
        }
    }

    /// Records that the program cannot continue for lack of memory. The command thread ends it at its next read.
    pub fn fail(&self) {
        self.out_of_memory.store(true, Ordering::SeqCst);
    }

    /// Whether the program cannot continue for lack of memory.
    pub fn has_failed(&self) -> bool {
        self.out_of_memory.load(Ordering::SeqCst)
    }

    /// Whether all connections were shut down: no client can receive replies any more.
    pub fn is_over(&self) -> bool {
        self.is_over.load(Ordering::SeqCst)
    }

    /// Ends the waiting for ticks, and lets no further request begin. For a while requests that have begun are still
    /// answered.
    pub fn end_clients<R: Wait + Clock>(&self, rt: &R) {
        self.tick_notifier.end(rt);
        if let Some(clients) = &self.clients {
            clients.end(rt, Duration::from_secs(LAST_REPLIES_SECONDS));
        }
    }

    /// Ends all threads: for a while lines that wait are still sent; then every stream is closed.
    pub fn shut_down<R: Wait + Clock>(&self, rt: &R) {
        for peer in &self.peers {
            peer.outbox.end(rt);
        }
        self.senders
            .wait_for_all(rt, Duration::from_secs(LAST_LINES_SECONDS));
        self.close(rt);
    }

    /// Closes every stream.
    fn close<R: Wait>(&self, rt: &R) {
        self.is_over.store(true, Ordering::SeqCst);
        if let Some(clients) = &self.clients {
            clients.close(rt);
        }
        for entrance in &self.entrances {
            entrance.handshakes.close(rt);
        }
        for peer in &self.peers {
            peer.close(rt);
        }
    }
}

/// Accepts clients, if the configuration says so. `None` if it does not.
fn clients_of<R: Net<Listener = TcpListener, Stream = TcpStream> + Clock + AllocGlobal>(
    rt: &R,
    config: &Config,
    stopwatch: Stopwatch,
    log: &Arc<LogQueue>,
    durability: &Option<Arc<Durability>>,
) -> Result<Option<Clients>, SiteFault> {
    let Some(address) = config.http() else {
        return Ok(None);
    };
    let listener = listen(rt, address)?;
    let listening = Listening::new(listener, stopwatch, event_log(config, log)?);
    let events = event_log(config, log)?;
    let durability = share_of(durability)?;
    Ok(Some(Clients::new(rt.alloc(), listening, stopwatch, config, events, durability)?))
}
