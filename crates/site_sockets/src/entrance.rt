//! An address at which peers connect.

use crate::connection_pool::{ConnectionPool, NoPlace};
use crate::limits::Limits;
use crate::listening::{Listening, listen};
use crate::peer::event_log;
use crate::stopwatch::Stopwatch;
use log_lines::LogQueue;
use rights_types::SiteId;
use site_words::{Config, SiteFault};
use std::net::{Net, TcpListener, TcpStream};
use std::sync::{Arc, Wait};
use std::time::Clock;

/// How many connections may wait for their first line at a time. A further connection is closed.
const WAITING: usize = 64;

/// An address at which peers connect.
#[derive(Drop)]
pub(crate) struct Entrance {
    /// The only peer that is let in. `None` at the address that the peers share that have no entrance of their own.
    pub(crate) owner: Option<SiteId>,
    listening: Listening,
    /// The connections that wait for their first line.
    pub(crate) handshakes: ConnectionPool,
    strangers: Limits,
}

impl Entrance {
    /// An entrance at this address. Errors: `CannotListen`, `OutOfMemory`.
    fn open<R: Net<Listener = TcpListener, Stream = TcpStream> + AllocGlobal>(
        rt: &R,
        owner: Option<SiteId>,
        address: &str,
        stopwatch: Stopwatch,
        config: &Config,
        log: &Arc<LogQueue>,
    ) -> Result<Entrance, SiteFault> {
        let listener = listen(rt, address)?;
        Ok(Entrance {
            owner,
            listening: Listening::new(listener, stopwatch, event_log(config, log)?),
            handshakes: ConnectionPool::new(rt.alloc(), WAITING)?,
            strangers: Limits::new(stopwatch, event_log(config, log)?),
        })
    }

    /// The next connection that gets a place to wait for its first line. `None` once the site ends.
    pub(crate) fn accept<R: Wait + Clock>(&self, rt: &R) -> Option<(TcpStream, usize)> {
        for _ in rt.forever() {
            if self.handshakes.is_closed(rt) {
                return None;
            }
            if let Some(accepted) = self.next(rt) {
                return Some(accepted);
            }
        }
        unreachable!()
    }

    /// A connection that comes soon, and its place.
    fn next<R: Wait + Clock>(&self, rt: &R) -> Option<(TcpStream, usize)> {
        let stream = self.listening.look(rt)?;
        match self.handshakes.enter(rt, &stream) {
            Ok(place) => Some((stream, place)),
            Err(NoPlace::NoHandle) => {
                self.listening.note_no_handle(rt);
                None
            }
            Err(_) => None,
        }
    }

    /// Frees the place of a connection for which no thread could be started, and reports it.
    pub(crate) fn give_up<R: Wait + Clock>(&self, rt: &R, place: usize) {
        self.handshakes.leave(rt, place);
        self.listening.note_no_thread(rt);
    }

    /// Reports that a connection was closed because its first line names a site that is not let in.
    pub(crate) fn note_stranger<R: Wait + Clock>(&self, rt: &R) {
        self.strangers.report(
            rt,
            "a connection was closed",
            "it named a site that is not let in at its address",
        );
    }
}

/// The entrances of a site: first the address that the peers share, then those of single peers.
pub(crate) fn entrances_of<R: Net<Listener = TcpListener, Stream = TcpStream> + AllocGlobal>(
    rt: &R,
    config: &Config,
    stopwatch: Stopwatch,
    log: &Arc<LogQueue>,
) -> Result<Vec<Entrance>, SiteFault> {
    let mut entrances = Vec::new(rt.alloc());
    if let Some(address) = config.listen() {
        entrances.push(Entrance::open(rt, None, address, stopwatch, config, log)?)?;
    }
    for own in config.entrances() {
        let owner = Some(own.site());
        entrances.push(Entrance::open(rt, owner, own.address(), stopwatch, config, log)?)?;
    }
    Ok(entrances)
}
