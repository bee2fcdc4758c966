//! The values of a peer that metrics report, and the words of these metrics.
ghost use Rattle.std.specs.Prelude.{◌≡◌, ◌≤◌, [], length};
ghost use Rattle.site_metrics.specs.PeerValues.{peer_value};
ghost use Rattle.site_metrics.specs.Table.{kind_word, peer_metric};

use crate::kind::Kind;
use crate::metrics::PeerMetrics;
use crate::samples::{MAX_HELP, MAX_NAME};

/// The value of a peer that a metric reports.
#[derive(Clone, Copy)]
pub(crate) enum PeerValue {
    Applied,
    Buffering,
    Held,
    Receiving,
    Sending,
    Silent,
    Lines,
    Refused,
    Dropped,
    Waiting,
    WentBack,
}

impl PeerValue {
    /// The value, as a number.
    pub(crate) fn of(self, peer: &PeerMetrics) -> u64
        ensures { result ≡ peer_value self peer.now }
    {
        match self {
            PeerValue::Applied => peer.applied,
            PeerValue::Buffering => peer.buffering as u64,
            PeerValue::Held => peer.held,
            PeerValue::Receiving => peer.receiving as u64,
            PeerValue::Sending => peer.sending as u64,
            PeerValue::Silent => peer.silent,
            PeerValue::Lines => peer.lines,
            PeerValue::Refused => peer.refused,
            PeerValue::Dropped => peer.dropped,
            PeerValue::Waiting => peer.waiting,
            PeerValue::WentBack => peer.went_back,
        }
    }

    /// The type of the metric.
    pub(crate) fn kind(self) -> Kind
        ensures { kind_word result ≡ (peer_metric self []).kind }
    {
        match self {
            PeerValue::Applied
            | PeerValue::Lines
            | PeerValue::Refused
            | PeerValue::Dropped
            | PeerValue::WentBack => Kind::Counter,
            PeerValue::Buffering
            | PeerValue::Held
            | PeerValue::Receiving
            | PeerValue::Sending
            | PeerValue::Silent
            | PeerValue::Waiting => Kind::Gauge,
        }
    }

    /// The name of the metric.
    pub(crate) fn name(self) -> &'static [u8]
        ensures name { result.now ≡ (peer_metric self []).name }
        ensures short { length result.now ≤ MAX_NAME }
    {
        match self {
            PeerValue::Applied => b"rights_peer_moves_applied_total",
            PeerValue::Buffering => b"rights_peer_buffering",
            PeerValue::Held => b"rights_peer_entries_held",
            PeerValue::Receiving => b"rights_peer_receiving",
            PeerValue::Sending => b"rights_peer_sending",
            PeerValue::Silent => b"rights_peer_silent_seconds",
            PeerValue::Lines => b"rights_peer_lines_total",
            PeerValue::Refused => b"rights_peer_lines_refused_total",
            PeerValue::Dropped => b"rights_peer_lines_dropped_total",
            PeerValue::Waiting => b"rights_peer_lines_waiting",
            PeerValue::WentBack => b"rights_peer_number_went_back_total",
        }
    }

    /// What the metric says.
    pub(crate) fn help(self) -> &'static [u8]
        ensures help { result.now ≡ (peer_metric self []).help }
        ensures short { length result.now ≤ MAX_HELP }
    {
        match self {
            PeerValue::Applied => b"Moves of the peer's log that are applied.",
            PeerValue::Buffering =>
                b"1 while entries of the peer wait for one that is missing, else 0.",
            PeerValue::Held => b"Entries of the peer that wait for one that is missing.",
            PeerValue::Receiving => b"1 while a connection from the peer stands, else 0.",
            PeerValue::Sending => b"1 while a connection to the peer stands, else 0.",
            PeerValue::Silent =>
                b"How long nothing has come from the peer, once that makes it silent; else 0.",
            PeerValue::Lines => b"Lines that came from the peer.",
            PeerValue::Refused => b"Lines from the peer that were skipped.",
            PeerValue::Dropped =>
                b"Lines for the peer that found no room in the outbox, or were lost by a failed connection or write.",
            PeerValue::Waiting => b"Lines that wait in the peer's outbox.",
            PeerValue::WentBack =>
                b"Beats of the peer below what was applied of its log: it was started anew, or runs twice.",
        }
    }
}
