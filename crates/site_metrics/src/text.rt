//! The text of all metrics.
ghost use Rattle.std.specs.Prelude.{◌≡◌, ◌++◌, [], drop, flat_map, length, ◌≤◌, ◌<◌, ◌+◌, ◌*◌, IfSome, IfNone, IsOk};
ghost use Rattle.std.specs.Prelude.{OnOk, OnErr};
ghost use Rattle.rights_types.specs.declared.limits.TheConstants.{MAX_SITES};
ghost use Rattle.site_metrics.specs.Format.{led_lines};
ghost use Rattle.site_metrics.specs.Table.{rights_metrics, state_metrics, client_metrics, log_metrics, line_metrics};
ghost use Rattle.site_metrics.specs.Table.{values_metrics, journal_metrics, all_metrics, metrics_text, bit};

use crate::kind::Kind;
use crate::metrics::{JournalMetrics, Metrics, PeerMetrics};
use crate::peer_value::PeerValue;
use crate::samples::{
    HEAD_ROOM, SAMPLE_ROOM, put_alone, put_by_name, put_by_peer, put_head, put_value,
};
use line_streams::Replies;
use refusals::REFUSAL_COUNT;
use rights_types::OutOfMemory;
use std::alloc::Allocator;

/// The text has at most this many bytes, and as many again as the second constant for each peer.
pub const SITE_ROOM: usize = 12_288;

pub const PEER_ROOM: usize = 1280;

/// Appends the metrics of a site and of its peers, in the given order, as one of the whole replies: a text for
/// Prometheus, of the content type `text/plain; version=0.0.4`, in which each line ends with a line feed. Every name
/// of a refusal has its count from the start, even if it is 0. On `Err` the replies are as they were.
pub fn put_metrics<A: Allocator>(
    metrics: &Metrics,
    peers: &[PeerMetrics],
    replies: &mut Replies<A>,
) -> Result<(), OutOfMemory>
    requires { replies.old.part ≡ [] }
    ensures ok { OnOk result ((replies.new.whole ≡ replies.old.whole ++ metrics_text metrics.now peers.now)
        × (replies.new.part ≡ [])) }
    ensures err { OnErr result ((replies.new.whole ≡ replies.old.whole) × (replies.new.part ≡ [])) }
    ensures memory { length peers.now ≤ MAX_SITES → SITE_ROOM + PEER_ROOM * length peers.now ≤ replies.old.room
        → IsOk result }
{
    let Some(room) = room_of(peers.len()) else {
        return Err(OutOfMemory);
    };
    replies.reserve(room)?;
    put_text(metrics, peers, replies).unwrap();
    Ok(())
}

/// The most bytes that the text for this many peers can have; None if that exceeds all memory.
fn room_of(peers: usize) -> Option<usize>
    ensures some { IfSome result (λ room. room ≡ SITE_ROOM + PEER_ROOM * peers) }
    ensures none { IfNone result (MAX_SITES < peers) }
{
    peers.checked_mul(PEER_ROOM)?.checked_add(SITE_ROOM)
}

fn put_text<A: Allocator>(
    metrics: &Metrics,
    peers: &[PeerMetrics],
    replies: &mut Replies<A>,
) -> Result<(), OutOfMemory>
    requires { replies.old.part ≡ [] }
    ensures ok { OnOk result ((replies.new.whole ≡ replies.old.whole ++ metrics_text metrics.now peers.now)
        × (replies.new.part ≡ [])) }
    ensures room { SITE_ROOM + PEER_ROOM * length peers.now ≤ replies.old.room → IsOk result }
{
    put_all(metrics, peers, replies)?;
    replies.finish()
}

/// The text without the line feed at its end.
fn put_all<A: Allocator>(
    metrics: &Metrics,
    peers: &[PeerMetrics],
    replies: &mut Replies<A>,
) -> Result<(), OutOfMemory>
    ensures ok { OnOk result (replies.new.part
        ≡ replies.old.part ++ drop 1 (flat_map led_lines (all_metrics metrics.now peers.now))) }
    ensures kept { replies.new.whole ≡ replies.old.whole }
    ensures room { SITE_ROOM + PEER_ROOM * length peers.now ≤ replies.old.room → IsOk result × (1 ≤ replies.new.room) }
{
    put_rights(metrics, replies)?;
    put_state(metrics, replies)?;
    put_clients(metrics, replies)?;
    put_logs(peers, replies)?;
    put_lines(peers, replies)?;
    put_journal(metrics.journal, replies)
}

/// The name of the first metric.
const HELD: &[u8] = b"rights_held";

/// The first metrics, with no line feed before them.
fn put_rights<A: Allocator>(metrics: &Metrics, replies: &mut Replies<A>) -> Result<(), OutOfMemory>
    ensures ok { OnOk result (replies.new.part
        ≡ replies.old.part ++ drop 1 (flat_map led_lines (rights_metrics metrics.now))) }
    ensures kept { replies.new.whole ≡ replies.old.whole }
    ensures room { 7 * (HEAD_ROOM + SAMPLE_ROOM) ≤ replies.old.room → IsOk result }
    ensures left { replies.old.room ≤ replies.new.room + (7 * (HEAD_ROOM + SAMPLE_ROOM)) }
{
    put_head(replies, Kind::Gauge, HELD, b"Rights that the site holds.")?;
    put_value(replies, HELD, metrics.held)?;
    put_alone(
        replies,
        Kind::Gauge,
        b"rights_queued",
        b"Rights that waiting spends are for.",
        metrics.queued,
    )?;
    put_alone(
        replies,
        Kind::Counter,
        b"rights_issued_total",
        b"Rights that the site issued.",
        metrics.issued,
    )?;
    put_alone(
        replies,
        Kind::Counter,
        b"rights_spent_total",
        b"Rights that the site spent.",
        metrics.spent,
    )?;
    put_alone(
        replies,
        Kind::Counter,
        b"rights_received_total",
        b"Rights that came from other sites.",
        metrics.received,
    )?;
    put_alone(
        replies,
        Kind::Counter,
        b"rights_given_total",
        b"Rights that went to other sites, taken back or not.",
        metrics.given,
    )?;
    put_alone(
        replies,
        Kind::Counter,
        b"rights_taken_back_total",
        b"Rights taken back after the site they were given to closed.",
        metrics.taken_back,
    )
}

fn put_state<A: Allocator>(metrics: &Metrics, replies: &mut Replies<A>) -> Result<(), OutOfMemory>
    ensures ok { OnOk result (replies.new.part ≡ replies.old.part ++ flat_map led_lines (state_metrics metrics.now)) }
    ensures kept { replies.new.whole ≡ replies.old.whole }
    ensures room { 5 * (HEAD_ROOM + SAMPLE_ROOM) ≤ replies.old.room → IsOk result }
    ensures left { replies.old.room ≤ replies.new.room + (5 * (HEAD_ROOM + SAMPLE_ROOM)) }
{
    put_alone(
        replies,
        Kind::Counter,
        b"rights_log_moves_total",
        b"Moves in the site's log: the number of its last entry.",
        metrics.log_number,
    )?;
    put_alone(
        replies,
        Kind::Gauge,
        b"rights_closed",
        b"1 once the site has closed, else 0.",
        bit(metrics.closed),
    )?;
    put_alone(
        replies,
        Kind::Gauge,
        b"rights_requests_waiting",
        b"Slots of the queue taken by spends that wait.",
        metrics.requests_waiting,
    )?;
    put_alone(
        replies,
        Kind::Gauge,
        b"rights_outcomes_unread",
        b"Slots of the queue taken by outcomes that nobody has read.",
        metrics.outcomes_unread,
    )?;
    put_alone(
        replies,
        Kind::Gauge,
        b"rights_clock_behind_seconds",
        b"How far the wall clock is behind the site's time, rounded up.",
        metrics.clock_behind,
    )
}

fn put_clients<A: Allocator>(metrics: &Metrics, replies: &mut Replies<A>) -> Result<(), OutOfMemory>
    ensures ok { OnOk result (replies.new.part ≡ replies.old.part ++ flat_map led_lines (client_metrics metrics.now)) }
    ensures kept { replies.new.whole ≡ replies.old.whole }
    ensures room { 4 * HEAD_ROOM + (REFUSAL_COUNT + 3) * SAMPLE_ROOM ≤ replies.old.room → IsOk result }
    ensures left { replies.old.room ≤ replies.new.room + (4 * HEAD_ROOM + (REFUSAL_COUNT + 3) * SAMPLE_ROOM) }
{
    put_alone(
        replies,
        Kind::Gauge,
        b"rights_clients",
        b"HTTP connections that stand.",
        metrics.clients,
    )?;
    put_alone(
        replies,
        Kind::Counter,
        b"rights_commands_total",
        b"Commands answered, of all clients and standard input.",
        metrics.commands,
    )?;
    put_by_name(
        replies,
        Kind::Counter,
        b"rights_commands_refused_total",
        b"Commands refused, by the name of the refusal.",
        &metrics.refused,
    )?;
    put_alone(
        replies,
        Kind::Counter,
        b"rights_log_lines_dropped_total",
        b"Log lines that were not written, since the log was not read.",
        metrics.log_lines_dropped,
    )
}

fn put_logs<A: Allocator>(
    peers: &[PeerMetrics],
    replies: &mut Replies<A>,
) -> Result<(), OutOfMemory>
    ensures ok { OnOk result (replies.new.part ≡ replies.old.part ++ flat_map led_lines (log_metrics peers.now)) }
    ensures kept { replies.new.whole ≡ replies.old.whole }
    ensures room { 6 * HEAD_ROOM + 6 * (SAMPLE_ROOM * length peers.now) ≤ replies.old.room → IsOk result }
    ensures left { replies.old.room ≤ replies.new.room + (6 * HEAD_ROOM + 6 * (SAMPLE_ROOM * length peers.now)) }
{
    put_by_peer(replies, peers, PeerValue::Applied)?;
    put_by_peer(replies, peers, PeerValue::Buffering)?;
    put_by_peer(replies, peers, PeerValue::Held)?;
    put_by_peer(replies, peers, PeerValue::Receiving)?;
    put_by_peer(replies, peers, PeerValue::Sending)?;
    put_by_peer(replies, peers, PeerValue::Silent)
}

fn put_lines<A: Allocator>(
    peers: &[PeerMetrics],
    replies: &mut Replies<A>,
) -> Result<(), OutOfMemory>
    ensures ok { OnOk result (replies.new.part ≡ replies.old.part ++ flat_map led_lines (line_metrics peers.now)) }
    ensures kept { replies.new.whole ≡ replies.old.whole }
    ensures room { 5 * HEAD_ROOM + 5 * (SAMPLE_ROOM * length peers.now) ≤ replies.old.room → IsOk result }
    ensures left { replies.old.room ≤ replies.new.room + (5 * HEAD_ROOM + 5 * (SAMPLE_ROOM * length peers.now)) }
{
    put_by_peer(replies, peers, PeerValue::Lines)?;
    put_by_peer(replies, peers, PeerValue::Refused)?;
    put_by_peer(replies, peers, PeerValue::Dropped)?;
    put_by_peer(replies, peers, PeerValue::Waiting)?;
    put_by_peer(replies, peers, PeerValue::WentBack)
}

fn put_journal<A: Allocator>(
    journal: Option<JournalMetrics>,
    replies: &mut Replies<A>,
) -> Result<(), OutOfMemory>
    ensures ok { OnOk result (replies.new.part ≡ replies.old.part ++ flat_map led_lines (journal_metrics journal)) }
    ensures kept { replies.new.whole ≡ replies.old.whole }
    ensures room { 4 * (HEAD_ROOM + SAMPLE_ROOM) ≤ replies.old.room → IsOk result }
    ensures left { replies.old.room ≤ replies.new.room + (4 * (HEAD_ROOM + SAMPLE_ROOM)) }
{
    match journal {
        Some(journal) => put_values(&journal, replies),
        None => Ok(()),
    }
}

fn put_values<A: Allocator>(
    journal: &JournalMetrics,
    replies: &mut Replies<A>,
) -> Result<(), OutOfMemory>
    ensures ok { OnOk result (replies.new.part ≡ replies.old.part ++ flat_map led_lines (values_metrics journal.now)) }
    ensures kept { replies.new.whole ≡ replies.old.whole }
    ensures room { 4 * (HEAD_ROOM + SAMPLE_ROOM) ≤ replies.old.room → IsOk result }
    ensures left { replies.old.room ≤ replies.new.room + (4 * (HEAD_ROOM + SAMPLE_ROOM)) }
{
    put_alone(
        replies,
        Kind::Counter,
        b"rights_journal_records_total",
        b"Records made for the journal, those of earlier processes among them.",
        journal.records,
    )?;
    put_alone(
        replies,
        Kind::Counter,
        b"rights_journal_records_durable_total",
        b"Records of the journal that are on its disk.",
        journal.durable,
    )?;
    put_alone(
        replies,
        Kind::Gauge,
        b"rights_journal_bytes",
        b"Bytes of the journal up to its last sync.",
        journal.bytes,
    )?;
    put_alone(
        replies,
        Kind::Gauge,
        b"rights_journal_synced_timestamp_seconds",
        b"When the journal was last synced, in seconds since 1970.",
        journal.synced,
    )
}

/// 1 if the value is true, else 0.
fn bit(value: bool) -> u64
    ensures { result ≡ bit value }
{
    value as u64
}
