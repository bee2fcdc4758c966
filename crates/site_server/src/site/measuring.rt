//! The metrics of a site, and its health.
ghost use Rattle.std.specs.Prelude.{◌≡◌, ◌++◌, [], List, ℕ, is_some, IfOk, OnOk};
ghost use Rattle.std.specs.List.{All};
ghost use Rattle.rights_book.specs.Books.{peer as peer_in};
ghost use Rattle.site_server.specs.Journals.{AreJournalMetrics};
ghost use Rattle.site_server.specs.Measuring.{AreMetrics, AreValues, HasApplied, HasValues, TellsClosed, TellsMetrics};

use crate::site::client::SiteClient;
use crate::site::keeping::progress_of;
use crate::site::tick_signal::TickSignal;
use apply_lanes::{DeskNames, DeskView};
use line_streams::Replies;
use rights_types::OutOfMemory;
use site_core::Desk;
use site_metrics::{JournalMetrics, Metrics, PeerMetrics, put_metrics};
use site_node::Peers;
use site_sockets::{PeerState, SiteSockets};
use std::alloc::Allocator;
use std::sync::Wait;

/// What is read from a desk at one moment.
#[derive(Drop)]
struct DeskValues {
    view: DeskView,
    /// The slots of its queue that are taken by waiting spends, and those taken by outcomes that no client has read.
    waiting: usize,
    unread: usize,
}

/// The metrics of a site with these values of its desk.
fn metrics_of<R: Wait>(rt: &R, site: &SiteSockets, values: DeskValues) -> Metrics
    ensures desk { HasValues values result }
    ensures journal { (is_some result.journal ≡ is_some site.now.durability) × AreJournalMetrics result.journal }
{
    let desk = values.view;
    Metrics {
        held: desk.held,
        queued: desk.queued,
        issued: desk.issued,
        spent: desk.spent,
        received: desk.received,
        given: desk.given,
        taken_back: desk.back,
        log_number: desk.number,
        closed: desk.closed,
        requests_waiting: values.waiting as u64,
        outcomes_unread: values.unread as u64,
        clock_behind: clock_behind(site),
        clients: site.client_count(rt) as u64,
        commands: site.commands.commands(),
        refused: site.commands.refused(),
        log_lines_dropped: site.log.dropped(rt),
        journal: journal_metrics_of(rt, site),
    }
}

/// How far the journal of the site is. `None` without a journal.
fn journal_metrics_of<R: Wait>(rt: &R, site: &SiteSockets) -> Option<JournalMetrics>
    ensures there { is_some result ≡ is_some site.now.durability }
    ensures values { AreJournalMetrics result }
{
    let progress = progress_of(rt, site)?;
    Some(JournalMetrics {
        records: progress.records,
        durable: progress.durable,
        bytes: progress.bytes,
        synced: progress.synced / 1000,
    })
}

/// How many seconds the wall clock was behind the site's time at the last tick, rounded up.
fn clock_behind(site: &SiteSockets) -> u64 {
    match &site.clock {
        Some(clock) => clock.behind().div_ceil(1000),
        None => 0,
    }
}

/// The metrics of a peer of whose log this much was applied.
fn peer_metrics_of<R: Wait>(rt: &R, peer: &PeerState, applied: u64) -> PeerMetrics
    ensures site { result.site ≡ peer.now.site }
    ensures applied { result.applied ≡ applied }
{
    let (buffering, held) = peer.buffer();
    let counters = peer.events.counters();
    PeerMetrics {
        site: peer.site,
        applied,
        buffering,
        held: held as u64,
        receiving: counters.is_receiving(),
        sending: counters.is_sending(),
        silent: peer.events.silent() / 1000,
        lines: counters.lines(),
        refused: counters.refused(),
        dropped: counters.dropped(),
        waiting: peer.waiting(rt) as u64,
        went_back: counters.went_back(),
    }
}

impl<D: DeskNames, R: Wait, P: Peers + Drop, B: TickSignal + Drop> SiteClient<'_, D, R, P, B> {
    /// Adds the metrics.
    pub(crate) fn tell_metrics<A: Allocator>(
        &self,
        replies: &mut Replies<A>,
    ) -> Result<(), OutOfMemory>
        requires { replies.old.part ≡ [] }
        ensures { OnOk result ((text : List ℕ) × TellsMetrics D.id text
            × (replies.new.whole ≡ replies.old.whole ++ text)) }
    {
        let (metrics, peers) = self.metrics()?;
        put_metrics(&metrics, peers.as_slice(), replies)
    }

    /// The metrics of the site and of its peers. Those of its desk are of one moment.
    fn metrics(&self) -> Result<(Metrics, Vec<PeerMetrics>), OutOfMemory>
        ensures { IfOk result (λ values. AreMetrics D.id values.0 values.1.items) }
    {
        let (desk, peers) = self.desk_values()?;
        Ok((metrics_of(self.rt, self.site, desk), peers))
    }

    /// The values of the desk, and the metrics of its peers.
    fn desk_values(&self) -> Result<(DeskValues, Vec<PeerMetrics>), OutOfMemory>
        ensures { IfOk result (λ values. AreValues D.id values.0 values.1.items) }
    {
        let look = self.seat.look(self.rt);
        let kept = look.kept();
        let peers = self.peer_metrics(kept.desk())?;
        let values = DeskValues {
            view: kept.view(),
            waiting: kept.desk().requests_waiting(),
            unread: kept.desk().outcomes_unread(),
        };
        Ok((values, peers))
    }

    /// For each peer, how far the desk has applied its log, and what was counted.
    fn peer_metrics(&self, desk: &Desk) -> Result<Vec<PeerMetrics>, OutOfMemory>
        ensures { IfOk result (λ peers. All (HasApplied desk.now) peers.items) }
    {
        let mut peers = Vec::with_capacity(self.alloc, self.site.peers().len())?;
        for peer in self.site.peers() {
            peers.push(peer_metrics_of(self.rt, peer, desk.applied(peer.site)))?;
        }
        Ok(peers)
    }

    /// Whether the desk is closed.
    pub(crate) fn closed(&self) -> bool
        ensures { TellsClosed D.id result }
    {
        let look = self.seat.look(self.rt);
        let kept = look.kept();
        kept.desk().log().closed()
    }
}
