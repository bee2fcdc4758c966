//! The outboxes of the peers, as the node puts lines into them.
ghost use Rattle.std.specs.Prelude.{◌≡◌, ◌+◌, ◌<◌, ◌≤◌, [], length, IfOk, OnErr};
ghost use Rattle.entry_codec.specs.Pieces.{IsLine};
ghost use Rattle.rights_types.specs.declared.limits.TheConstants.{MAX_NUMBER, MAX_SITES};
ghost use Rattle.site_server.specs.Outboxes.{OffersTo, SendsQuery, SendsToPeer, StopsAtOutbox};

use crate::site::locked_outbox::LockedOutbox;
use apply_lanes::{DeskNames, Kept};
use desk_turns::{Turns, Work};
use histories::History;
use rights_types::{MAX_SITES, OutOfMemory, SiteId};
use site_node::{Peers, Sink, send_due};
use site_sockets::PeerState;
use std::marker::Model;
use std::sync::Wait;
use std::time::Clock;

/// A sink of lines to one peer that also sends queries.
pub(crate) trait QuerySink: Sink {
    ghost use Rattle.std.specs.Prelude.{ℕ, List};

    /// `queries before line after`: the line was sent as a query, and the sink changed from `before` to `after`.
    ghost queries: { Self → List ℕ → Self → Type 0 };

    /// Sends a query. The caller holds no lock, since a write may take 5 milliseconds.
    fn send_query(&mut self, line: Vec<u8>)
        requires { IsLine line.items }
        ensures { queries self.old line.items self.new };
}

/// A line that was written at once. A clause reads it as its bytes.
#[derive(Drop)]
struct WrittenLine(Vec<u8>);

impl Model for WrittenLine {
    ghost use Rattle.std.specs.Prelude.{ℕ, List};

    ghost Value = { List ℕ };

    ghost view = { λ line. line.0.items };
}

/// The outbox of one peer, for a thread that answers it, which holds it for each line. In between other threads put
/// lines too, and one takes them.
#[derive(Drop)]
pub(crate) struct PeerOutbox<'a, R: Wait> {
    rt: &'a R,
    peer: &'a PeerState,
    holds: History<LockedOutbox<'a>>,
    written: History<WrittenLine>,
}

impl<'a, R: Wait> Model for PeerOutbox<'a, R> {
    ghost use Rattle.site_server.specs.Outboxes.{OutboxValue};

    ghost Value = { OutboxValue };

    ghost view = { λ outbox. record {
      site = outbox.peer.now.site;
      holds = outbox.holds.items;
      written = outbox.written.items;
    } };
}

impl<'a, R: Wait> PeerOutbox<'a, R> {
    pub(crate) fn new(rt: &'a R, peer: &'a PeerState) -> PeerOutbox<'a, R>
        ensures { result ≡ record { site = peer.now.site; holds = []; written = [] } }
    {
        PeerOutbox {
            rt,
            peer,
            holds: History::new(),
            written: History::new(),
        }
    }

    /// Puts a line into the outbox. False if it found no room, and is lost.
    fn put(&mut self, line: Vec<u8>) -> bool
        requires { IsLine line.items }
        ensures { OffersTo self.old line.items result self.new }
    {
        let mut outbox = LockedOutbox::new(self.rt, self.peer);
        let holds = self.holds.and(&outbox);
        let has_room = outbox.offer(line);
        self.holds = holds.and(&outbox);
        has_room
    }

    /// Writes a query at once if no line waits to be sent, and else puts it into the outbox. A site that catches up
    /// sends one query for each answer.
    fn write_or_put(&mut self, line: Vec<u8>)
        requires { IsLine line.items }
        ensures { SendsQuery self.old line.items self.new }
    {
        let line = WrittenLine(line);
        if self.peer.write_now(self.rt, line.0.as_slice()) {
            self.written = self.written.and(&line);
        } else {
            self.put(line.0);
        }
    }
}

impl<R: Wait> Sink for PeerOutbox<'_, R> {
    ghost use Rattle.site_server.specs.Outboxes.{OffersTo};

    ghost takes = { OffersTo };

    fn offer(&mut self, line: Vec<u8>) -> bool {
        self.put(line)
    }
}

impl<R: Wait> QuerySink for PeerOutbox<'_, R> {
    ghost use Rattle.site_server.specs.Outboxes.{SendsQuery};

    ghost queries = { SendsQuery };

    fn send_query(&mut self, line: Vec<u8>) {
        self.write_or_put(line);
    }
}

/// In one turn, everything that is due to a peer goes into its outbox, which is locked under the desk's lock.
#[derive(Drop)]
struct SendDue<'a, R: Wait> {
    rt: &'a R,
    peer: &'a PeerState,
}

impl<'a, D: DeskNames, R: Wait> Work<D> for SendDue<'a, R> {
    ghost use Rattle.site_server.specs.Outboxes.{SendsDue};

    type With = History<LockedOutbox<'a>>;

    type Told = Result<u64, OutOfMemory>;

    ghost may = { λ _. Unit {0} };

    ghost does = { λ work was old result now new. SendsDue work.peer.now was.items old result now.items new };

    fn work(
        self,
        kept: &mut Kept<D>,
        with: &mut History<LockedOutbox<'a>>,
    ) -> Result<u64, OutOfMemory> {
        self.peer.events.offers(kept.desk().number());
        let mut outbox = LockedOutbox::new(self.rt, self.peer);
        let holds = with.and(&outbox);
        let sent = send_due(kept, self.peer.site, &mut outbox);
        *with = holds.and(&outbox);
        sent
    }
}

/// The peers of a site, the turns at the desk in which lines go to them, and their outboxes as they were then held.
#[derive(Drop)]
pub(crate) struct Outboxes<'a, D: DeskNames, R: Wait> {
    rt: &'a R,
    turns: Turns<D>,
    peers: &'a [PeerState],
    holds: History<LockedOutbox<'a>>,
    ghost few: { length peers.now ≤ MAX_SITES },
}

impl<'a, D: DeskNames, R: Wait + Clock> Outboxes<'a, D, R> {
    /// `None` if there are more peers than a system can have sites.
    pub(crate) fn new(
        rt: &'a R,
        turns: Turns<D>,
        peers: &'a [PeerState],
    ) -> Option<Outboxes<'a, D, R>> {
        if peers.len() > MAX_SITES as usize {
            return None;
        }
        Some(Outboxes {
            rt,
            turns,
            peers,
            holds: History::new(),
        })
    }

    /// How many lines are due to this peer at most: its entries, an ask and a beat.
    fn lines_due(&self, peer: SiteId) -> usize {
        let look = self.turns.look(self.rt);
        let log = look.kept().desk().log();
        log.len().saturating_sub(log.cursor(peer)) + 2
    }

    /// Offers everything due to the peer at this index to its outbox, in one turn at the desk, and returns how many
    /// lines it accepted.
    fn send_to(&mut self, index: usize) -> Result<u64, OutOfMemory>
        requires { index < length self.old.peers.now }
        ensures sends { IfOk result (λ sent. SendsToPeer D.id self.old.peers.now index
            (record { turns = self.old.turns; holds = self.old.holds.items }) sent
            (record { turns = self.new.turns; holds = self.new.holds.items })) }
        ensures stops { OnErr result (StopsAtOutbox D.id self.old.peers.now index
            (record { turns = self.old.turns; holds = self.old.holds.items })
            (record { turns = self.new.turns; holds = self.new.holds.items })) }
        ensures range { IfOk result (λ sent. sent ≤ MAX_NUMBER + 2) }
        ensures same { self.new.peers ≡ self.old.peers }
    {
        let peers = self.peers;
        let peer = &peers[index];
        peer.make_room(self.rt, || self.lines_due(peer.site));
        let work = SendDue { rt: self.rt, peer };
        self.turns.take(self.rt, work, &mut self.holds)
    }
}

impl<D: DeskNames, R: Wait + Clock> Peers for Outboxes<'_, D, R> {
    ghost use Rattle.std.specs.Prelude.{length};
    ghost use Rattle.site_server.specs.Outboxes.{SendsToPeer, StopsAtOutbox};

    ghost size = { λ outboxes. length outboxes.peers.now };

    ghost sends = { λ before index sent after. SendsToPeer D.id before.peers.now index
        (record { turns = before.turns; holds = before.holds.items }) sent
        (record { turns = after.turns; holds = after.holds.items }) };

    ghost stops = { λ before index after. StopsAtOutbox D.id before.peers.now index
        (record { turns = before.turns; holds = before.holds.items })
        (record { turns = after.turns; holds = after.holds.items }) };

    fn count(&self) -> usize {
        self.peers.len()
    }

    fn send_due(&mut self, index: usize) -> Result<u64, OutOfMemory> {
        self.send_to(index)
    }
}
