//! The text of all metrics.
use super::expected::{EXPECTED, JOURNAL};
use line_streams::Replies;
use refusals::{REFUSAL_COUNT, Refusal};
use rights_types::SiteId;
use site_metrics::{JournalMetrics, Metrics, PeerMetrics, put_metrics};
use std::alloc::{Allocator, Global};

fn site_metrics() -> Metrics {
    let mut refused = [0; REFUSAL_COUNT];
    refused[Refusal::BadAmount.index()] = 8;
    refused[Refusal::Short.index()] = 17;
    refused[Refusal::OutOfMemory.index()] = 1;
    refused[Refusal::BadCommand.index()] = 9;
    refused[Refusal::BadDeadline.index()] = 6;
    Metrics {
        held: 7,
        queued: 5,
        issued: 100,
        spent: 40,
        received: 12,
        given: 60,
        taken_back: 3,
        log_number: 21,
        closed: true,
        requests_waiting: 2,
        outcomes_unread: 4,
        clock_behind: 11,
        clients: 6,
        commands: 1000,
        refused,
        log_lines_dropped: 22,
        journal: None,
    }
}

/// A peer with entries missing, and one that has never sent anything.
fn peer_metrics() -> [PeerMetrics; 2] {
    let missing = PeerMetrics {
        site: SiteId::known(2),
        applied: 382,
        buffering: true,
        held: 11,
        receiving: true,
        sending: false,
        silent: 0,
        lines: 500,
        refused: 13,
        dropped: 14,
        waiting: 15,
        went_back: 1,
    };
    let other = PeerMetrics {
        site: SiteId::known(16),
        applied: 0,
        buffering: false,
        held: 0,
        receiving: false,
        sending: true,
        silent: 13,
        lines: u64::MAX,
        refused: 0,
        dropped: 0,
        waiting: 256,
        went_back: 0,
    };
    [missing, other]
}

/// Whether the text of the metrics is the expected one, with this behind it.
fn is_text(alloc: Global, metrics: &Metrics, peers: &[PeerMetrics], behind: &[u8]) -> bool {
    let mut replies = Replies::new(alloc);
    if put_metrics(metrics, peers, &mut replies).is_err() {
        return false;
    }
    let mut text = Vec::new(alloc);
    if replies.write_to(&mut text).is_err() {
        return false;
    }
    text.as_slice().strip_suffix(behind) == Some(EXPECTED)
}

/// Each value is shown with its name, and with its peer.
#[test]
fn each_value_is_at_its_name(rt: HostRuntime) {
    assert!(rt; is_text(rt.alloc(), &site_metrics(), &peer_metrics(), b""));
}

/// Those of a journal come last.
#[test]
fn a_journal_has_metrics(rt: HostRuntime) {
    let journal = JournalMetrics {
        records: 31,
        durable: 30,
        bytes: 2048,
        synced: 1_764_390_000,
    };
    let metrics = Metrics {
        journal: Some(journal),
        ..site_metrics()
    };
    assert!(rt; is_text(rt.alloc(), &metrics, &peer_metrics(), JOURNAL));
}
