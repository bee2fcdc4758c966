//! Incoming connections whose first line has not been read.

use crate::connection_slot::Connection;
use crate::deadline_reader::DeadlineReader;
use crate::entrance::Entrance;
use crate::site::SiteSockets;
use entry_codec::LineCutter;
use peer_links::read_hello;
use rights_types::SiteId;
use site_words::Config;
use std::net::TcpStream;
use std::sync::Wait;
use std::thread;
use std::thread::{Scope, Threads};
use std::time::{Clock, Duration};

/// How many seconds the first line of a connection may take.
const HELLO_SECONDS: u64 = 5;

/// The site that the first line of a connection names, and the connection after that line. `None` if there is no such
/// line in time, or an operation on the stream or a memory request fails.
fn identified<R: Wait + Clock + AllocGlobal>(
    rt: &R,
    stream: TcpStream,
) -> Option<(SiteId, Connection)> {
    let mut cutter = LineCutter::new(rt.alloc()).ok()?;
    let time = Duration::from_secs(HELLO_SECONDS);
    let mut reader = DeadlineReader::new(rt, &stream, time).ok()?;
    let from = read_hello(&mut reader, &mut cutter).ok()?;
    stream.set_read_timeout(None).ok()?;
    Some((from, Connection { stream, cutter }))
}

/// Reads the first line of a connection, which has this place while it waits, and hands the connection to the thread
/// that reads this peer. If the first line does not name a peer that is let in here, or does not arrive in time, the
/// connection is closed.
fn handshake<R: Wait + Clock + AllocGlobal>(
    rt: &R,
    config: &Config,
    site: &SiteSockets,
    entrance: &Entrance,
    stream: TcpStream,
    place: usize,
) {
    let identified = identified(rt, stream);
    entrance.handshakes.leave(rt, place);
    let Some((from, connection)) = identified else {
        return;
    };
    if !config.admits(entrance.owner, from) {
        return entrance.note_stranger(rt);
    }
    if let Some(peer) = site.peer(from) {
        peer.connection_slot.put(rt, connection);
    }
}

/// Accepts connections until the site ends, each with a thread of its own until its first line is read.
fn run_acceptor<R: Threads + Wait + Clock + AllocGlobal + Sync>(
    rt: &R,
    config: &Config,
    site: &SiteSockets,
    entrance: &Entrance,
) {
    thread::scope(thread::scope_env(), rt, |scope| {
        for _ in rt.forever() {
            let Some((stream, place)) = entrance.accept(rt) else {
                return;
            };
            if scope
                .spawn(move || handshake(rt, config, site, entrance, stream, place))
                .is_err()
            {
                entrance.give_up(rt, place);
            }
        }
    })
}

/// Starts the threads that accept connections of peers, one for each entrance. `false` if one could not be started.
pub fn begin_acceptors<'s, E, R: Threads + Wait + Clock + AllocGlobal + Sync>(
    scope: &Scope<'s, E>,
    rt: &'s R,
    config: &'s Config,
    site: &'s SiteSockets,
) -> bool {
    for entrance in &site.entrances {
        if scope
            .spawn(move || run_acceptor(rt, config, site, entrance))
            .is_err()
        {
            return false;
        }
    }
    true
}
