//! One site of a system as a process. It reads its commands one after another from a reader. Everything that other
//! sites send arrives over TCP, and is taken in by threads of its own. The command thread does not wait for any peer:
//! what it sends goes into bounded outboxes.
ghost use Rattle.std.specs.Prelude.{◌≡◌, []};
ghost use Rattle.apply_lanes.specs.Names.{id_of, AreBlank, IsUnused};
ghost use Rattle.site_server.specs.Starting.{IsUntouched};

mod client;
mod command_reader;
mod connection;
mod ending;
mod journaling;
mod keeping;
mod listing;
mod locked_outbox;
mod logging;
mod measuring;
mod outboxes;
mod progress_lines;
mod receiving;
mod replaying;
mod runtime;
mod serving;
mod settling;
mod shared;
mod site_time;
mod slots;
mod starting;
mod tick_log;
mod tick_signal;
mod ticking;

use crate::site::client::client_at;
use crate::site::command_reader::CommandReader;
use crate::site::ending::{say_no_report, say_report, say_unsent, stop_desk};
use crate::site::journaling::open_journal;
use crate::site::keeping::{Keeper, announce_journal, begin_counts, begin_keeper};
use crate::site::logging::{begin_log, end_log};
use crate::site::receiving::{PeerLink, links_of};
use crate::site::replaying::{Replayed, replay};
use crate::site::runtime::SiteRuntime;
use crate::site::serving::begin_clients;
use crate::site::shared::{COMMANDS, Shared};
use crate::site::starting::start_once;
use crate::site::ticking::{begin_ticks, tick_last};
use apply_lanes::{Blanks, DeskNames};
use command_keys::{KeyBook, Keys};
use desk_turns::Seats;
use durability::{Durability, ExitWriter};
use histories::History;
use journal_file::{FileDevice, Unknown};
use line_streams::ConversationError;
use log_lines::LogWriter;
use rights_types::OutOfMemory;
use site_core::Desk;
use site_sockets::{PeerState, SiteSockets, begin_acceptors, begin_sender};
use site_words::{Config, SiteFault};
use std::fs::{File, Files};
use std::hash::RandomState;
use std::io::{Read, Write};
use std::marker::Brand;
use std::net::{Net, TcpListener, TcpStream};
use std::random::RandomSource;
use std::sync::{Arc, Wait};
use std::thread;
use std::thread::{Scope, Threads};
use std::time::Clock;

/// The streams of a site's process.
#[derive(Drop)]
struct Streams<I, W, E> {
    reader: I,
    writer: W,
    /// Where it is written what the site logs.
    errors: E,
}

/// The journal of a site at its start.
#[derive(Drop)]
struct Journaled<'a> {
    path: &'a str,
    device: FileDevice<Unknown>,
}

/// What the threads of a site begin with.
#[derive(Drop)]
struct Begun<D: DeskNames> {
    links: Vec<PeerLink<D>>,
    keeper: Option<Keeper<D>>,
}

/// Runs one site until `quit` or the end of its commands. It listens before it reads the first one. Replies are
/// written before each read, so they never wait for further commands. A read or a write of `errors` that fails with
/// `WouldBlock` is tried again: no thread but that of the log waits for `errors`, and a silent input does not keep the
/// site from ending for lack of memory. Errors before the first read: `CannotListen`, and after that `StartedBefore` or
/// `CannotCreateStartFile`; at any point `OutOfMemory`, also if a thread cannot be started; with a journal also
/// `Explained`. So a site that cannot listen does not count as started.
pub fn run_site<
    R: Net<Listener = TcpListener, Stream = TcpStream>
        + Threads
        + Wait
        + Clock
        + RandomSource
        + AllocGlobal
        + Files<File = File>
        + Sync,
    I: Read,
    W: Write,
    E: Write + Send + Drop,
>(rt: &R, config: Config, reader: &mut I, writer: &mut W, errors: E) -> Result<(), SiteFault> {
    let streams = Streams {
        reader,
        writer,
        errors,
    };
    match config.journal() {
        Some(path) => run_with_journal(rt, &config, path, streams),
        None => run_in_memory(rt, &config, streams),
    }
}

/// Runs a site without a journal.
fn run_in_memory<R: SiteRuntime + Files, I: Read + Drop, W: Write + Drop, E: Write + Send + Drop>(
    rt: &R,
    config: &Config,
    streams: Streams<I, W, E>,
) -> Result<(), SiteFault> {
    let site = SiteSockets::open(rt, config, None)?;
    start_once(rt, config.once())?;
    site.announce(rt, config);
    let desk = Desk::new(rt.alloc(), config.id(), config.sites())?;
    serve::<Brand, R, I, W, E>(rt, config, &site, desk, Blanks::new(), streams)
}

/// Runs a site with the journal at this path.
fn run_with_journal<
    R: SiteRuntime + Files<File = File>,
    I: Read + Drop,
    W: Write + Drop,
    E: Write + Send + Drop,
>(rt: &R, config: &Config, path: &str, mut streams: Streams<I, W, E>) -> Result<(), SiteFault> {
    let device = open_journal(rt, path, Unknown, &mut streams.errors)?;
    let desk = Desk::new(rt.alloc(), config.id(), config.sites())?;
    let journaled = Journaled { path, device };
    serve_again::<Brand, R, I, W, E>(rt, config, journaled, desk, Blanks::new(), streams)
}

/// Shares the desk of a site, replays the journal, and runs the site. No port is opened before that.
fn serve_again<
    D: DeskNames + Send + Sync,
    R: SiteRuntime + Files<File = File>,
    I: Read + Drop,
    W: Write + Drop,
    E: Write + Send + Drop,
>(
    rt: &R,
    config: &Config,
    journaled: Journaled<'_>,
    desk: Desk,
    blanks: Blanks,
    mut streams: Streams<I, W, E>,
) -> Result<(), SiteFault>
    requires journal { IsUntouched [] journaled.device }
    requires id { D.id ≡ id_of desk blanks }
    requires blanks { AreBlank blanks }
    requires unused { IsUnused desk }
    requires configured { (D.id.site ≡ config.now.id) × (D.id.sites ≡ config.now.sites) }
{
    let alloc = rt.alloc();
    let durability = Arc::new(alloc, Durability::new())?;
    let keys = new_keys(rt, config)?;
    let shared = Shared::<D>::new(rt, alloc, desk, blanks, keys, Some(durability.clone()?))?;
    let mut links = links_of(rt, alloc, config, &shared)?;
    let Journaled { path, device } = journaled;
    let Replayed { journal, made } = replay(
        rt,
        config,
        path,
        &shared,
        &mut links,
        device,
        &mut streams.errors,
    )?;
    begin_counts(rt, &durability, &journal, made);
    let keeper = Keeper::new(alloc, path, shared.desk.clone()?, journal)?;
    let site = SiteSockets::open(rt, config, Some(durability))?;
    note_offers(rt, &site, &shared);
    site.announce(rt, config);
    announce_journal(rt, &site, path);
    run_logged(rt, config, &site, shared, links, Some(keeper), streams)
}

/// The keys of a site that starts, none yet. `None` if it takes none.
fn new_keys<R: RandomSource + AllocGlobal>(
    rt: &R,
    config: &Config,
) -> Result<Option<KeyBook>, OutOfMemory> {
    let count = config.keys();
    if count == 0 {
        return Ok(None);
    }
    let Ok(hasher) = RandomState::new(rt) else {
        return Err(OutOfMemory);
    };
    let keys = Keys::new(rt.alloc(), hasher, count as usize);
    Ok(Some(KeyBook::new(rt.alloc(), keys)))
}

/// Notes that no peer lacks an entry of the log, as far as is known: each asks for those that it lacks.
fn note_offers<D: DeskNames, R: Wait>(rt: &R, site: &SiteSockets, shared: &Shared<D>) {
    let look = shared.desk.look(rt);
    let number = look.kept().desk().number();
    for peer in site.peers() {
        peer.events.offers(number);
    }
}

/// Shares the desk of a site, and runs the site.
fn serve<
    D: DeskNames + Send + Sync,
    R: SiteRuntime,
    I: Read + Drop,
    W: Write + Drop,
    E: Write + Send + Drop,
>(
    rt: &R,
    config: &Config,
    site: &SiteSockets,
    desk: Desk,
    blanks: Blanks,
    streams: Streams<I, W, E>,
) -> Result<(), SiteFault>
    requires id { D.id ≡ id_of desk blanks }
    requires blanks { AreBlank blanks }
    requires unused { IsUnused desk }
    requires configured { (D.id.site ≡ config.now.id) × (D.id.sites ≡ config.now.sites) }
{
    // Each thread owns references to what it shares: the check lets none borrow a value whose type has a parameter.
    let keys = new_keys(rt, config)?;
    let shared = Shared::<D>::new(rt, rt.alloc(), desk, blanks, keys, None)?;
    let links = links_of(rt, rt.alloc(), config, &shared)?;
    run_logged(rt, config, site, shared, links, None, streams)
}

/// Runs the site while a thread writes what it logs. That thread ends last.
fn run_logged<
    D: DeskNames + Send + Sync,
    R: SiteRuntime,
    I: Read + Drop,
    W: Write + Drop,
    E: Write + Send + Drop,
>(
    rt: &R,
    config: &Config,
    site: &SiteSockets,
    shared: Shared<D>,
    links: Vec<PeerLink<D>>,
    keeper: Option<Keeper<D>>,
    streams: Streams<I, W, E>,
) -> Result<(), SiteFault> {
    let Streams {
        reader,
        writer,
        errors,
    } = streams;
    let log = LogWriter::new(rt, &site.log, errors)?;
    thread::scope(thread::scope_env(), rt, |scope| {
        let ended = if begin_log(scope, log) {
            run_desk(rt, config, site, shared, links, keeper, reader, writer)
        } else {
            Err(SiteFault::OutOfMemory)
        };
        end_log(rt, site);
        ended
    })
}

/// Starts the threads of a site, answers its commands, ends the threads, and stops the desk.
fn run_desk<D: DeskNames + Send + Sync, R: SiteRuntime, I: Read + Drop, W: Write + Drop>(
    rt: &R,
    config: &Config,
    site: &SiteSockets,
    shared: Shared<D>,
    links: Vec<PeerLink<D>>,
    keeper: Option<Keeper<D>>,
    reader: I,
    writer: W,
) -> Result<(), SiteFault> {
    let begun = Begun { links, keeper };
    let ended = run_threads(rt, config, site, &shared.seats, begun, reader, writer);
    if has_lost_journal(rt, site) {
        // The desk may have done more than what is durable, so it does not report.
        return Err(SiteFault::Explained);
    }
    stop_site(rt, site, config.log(), shared);
    Ok(ended?)
}

/// What waits for the journal is to be appended, and then no more.
fn end_journal<R: Wait>(rt: &R, site: &SiteSockets) {
    if let Some(durability) = site.durability() {
        durability.end(rt, &mut History::new());
    }
}

/// Whether the site ended since its journal failed, which was logged.
fn has_lost_journal<R: Wait>(rt: &R, site: &SiteSockets) -> bool {
    match site.durability() {
        Some(durability) => site.has_failed() && durability.has_failed(rt, &mut History::new()),
        None => false,
    }
}

/// Stops the desk of a site whose threads have ended, and reports what it did, if clients could connect. Before that it
/// logs which entries were sent to no peer, if events are logged.
fn stop_site<D: DeskNames, R: Wait + AllocGlobal>(
    rt: &R,
    site: &SiteSockets,
    log: bool,
    shared: Shared<D>,
) {
    if log {
        say_unsent(rt, site, &shared);
    }
    let stopped = stop_desk(rt.alloc(), shared);
    if site.clients.is_none() {
        return;
    }
    match stopped {
        Ok(report) => say_report(rt, &site.log, &report),
        Err(why) => say_no_report(rt, &site.log, why),
    }
}

/// Answers the commands while the threads of the site run. The thread that appends ends after all others: what they do at
/// the end is to be durable too, before the desk reports it.
fn run_threads<D: DeskNames + Send + Sync, R: SiteRuntime, I: Read + Drop, W: Write + Drop>(
    rt: &R,
    config: &Config,
    site: &SiteSockets,
    seats: &Arc<Seats<D>>,
    begun: Begun<D>,
    reader: I,
    writer: W,
) -> Result<(), ConversationError> {
    let Begun { links, keeper } = begun;
    thread::scope(thread::scope_env(), rt, |scope| {
        let links = if begin_keeper(scope, rt, site, keeper) {
            Some(links)
        } else {
            None
        };
        let ended = run_others(rt, config, site, seats, links, reader, writer);
        end_journal(rt, site);
        ended
    })
}

/// Answers the commands while the other threads of the site run. `None` is passed if one could not be started.
fn run_others<D: DeskNames + Send + Sync, R: SiteRuntime, I: Read + Drop, W: Write + Drop>(
    rt: &R,
    config: &Config,
    site: &SiteSockets,
    seats: &Arc<Seats<D>>,
    links: Option<Vec<PeerLink<D>>>,
    mut reader: I,
    writer: W,
) -> Result<(), ConversationError> {
    let mut writer = ExitWriter::new(rt, site.durability(), writer);
    thread::scope(thread::scope_env(), rt, |scope| {
        let ended = if begin_all(scope, rt, config, site, seats, links) {
            answer_commands(rt, site, seats, &mut reader, &mut writer)
        } else {
            say_no_thread(rt, site);
            Err(ConversationError::OutOfMemory)
        };
        site.end_clients(rt);
        if ended.is_ok() {
            tick_last(rt, site, seats);
        }
        site.shut_down(rt);
        ended
    })
}

/// Logs what the system refused, if events are logged.
fn say_no_thread<R: Wait>(rt: &R, site: &SiteSockets) {
    if site.logs_events {
        site.log.put(rt, "a thread could not be started");
    }
}

/// Answers the commands, with their seat. If the site cannot continue for lack of memory, no further read begins.
fn answer_commands<D: DeskNames, R: Wait + Clock + AllocGlobal, I: Read, W: Write>(
    rt: &R,
    site: &SiteSockets,
    seats: &Seats<D>,
    reader: &mut I,
    writer: &mut W,
) -> Result<(), ConversationError> {
    let Some(mut client) = client_at(rt, site, seats, COMMANDS) else {
        return Err(ConversationError::OutOfMemory);
    };
    let mut reader = CommandReader::new(site, reader);
    match client.answer_all(&mut reader, writer) {
        Err(ConversationError::ReadFailed) if site.has_failed() => {
            Err(ConversationError::OutOfMemory)
        }
        Err(fault) => Err(fault),
        Ok(_) => Ok(()),
    }
}

/// Starts all threads except that of the commands and that which appends. `false` if one could not be started.
fn begin_all<'s, E, D: DeskNames + Send + Sync + 's, R: SiteRuntime>(
    scope: &Scope<'s, E>,
    rt: &'s R,
    config: &'s Config,
    site: &'s SiteSockets,
    seats: &Arc<Seats<D>>,
    links: Option<Vec<PeerLink<D>>>,
) -> bool {
    let Some(links) = links else {
        return false;
    };
    let mut has_all = begin_acceptors(scope, rt, config, site);
    has_all &= begin_clients(scope, rt, site, seats);
    has_all &= begin_ticks(scope, rt, site, config.tick(), seats);
    for link in links {
        has_all &= begin_peer(scope, rt, site, link);
    }
    has_all
}

/// Starts the threads for one peer. `false` if one could not be started.
fn begin_peer<'s, E, D: DeskNames + Send + Sync + 's, R: SiteRuntime>(
    scope: &Scope<'s, E>,
    rt: &'s R,
    site: &'s SiteSockets,
    link: PeerLink<D>,
) -> bool {
    match site.peer(link.origin) {
        Some(peer) => {
            begin_link(scope, rt, site, peer, link) && begin_sender(scope, rt, site, peer)
        }
        None => true,
    }
}

/// Starts the threads that read this peer's lines and apply its entries. `false` if one could not be started.
fn begin_link<'s, E, D: DeskNames + Send + Sync + 's, R: Wait + Clock + AllocGlobal + Sync>(
    scope: &Scope<'s, E>,
    rt: &'s R,
    site: &'s SiteSockets,
    peer: &'s PeerState,
    link: PeerLink<D>,
) -> bool {
    let PeerLink {
        receiver,
        applier,
        ..
    } = link;
    begin_both(
        scope,
        move || receiver.receive_all(rt, peer),
        move || applier.apply_all(rt, site),
    )
}

/// Starts a thread for each of the two. `false` if one could not be started.
fn begin_both<'s, E, F: FnOnce() + Send + Drop + 's, G: FnOnce() + Send + Drop + 's>(
    scope: &Scope<'s, E>,
    first: F,
    second: G,
) -> bool
    requires first { F.pre first }
    requires second { G.pre second }
{
    scope.spawn(first).is_ok() && scope.spawn(second).is_ok()
}
