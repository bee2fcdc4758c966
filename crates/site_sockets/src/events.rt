//! What happens on the links with one peer: counted, and reported in the log. No lock is taken to count it, since each
//! thread records its own events.

use log_lines::LogQueue;
use rights_types::SiteId;
use site_metrics::PeerCounters;
use std::fmt::Display;
use std::sync::atomic::{AtomicBool, AtomicU64, Ordering};
use std::sync::{Arc, Wait};

/// How many milliseconds a connection has to last, after one that did not, before sending counts as resumed: at first, and
/// at most. Each further one that does not last doubles it, and one that lasts so long at most ends it.
const MIN_PATIENCE: u64 = 1_000;

const MAX_PATIENCE: u64 = 64_000;

/// Why lines of a peer are skipped.
#[derive(Clone, Copy, Debug, PartialEq, Eq)]
pub enum SkipCause {
    /// The line has more than `MAX_LINE` bytes.
    TooLong,
    /// The line is not a message.
    NoMessage,
    /// It was sent by another site than the peer.
    WrongOrigin,
    /// It names a site that the system does not have, or is for another site.
    BadSite,
}

impl SkipCause {
    fn text(self) -> &'static str {
        match self {
            SkipCause::TooLong => "they are too long",
            SkipCause::NoMessage => "they are no messages",
            SkipCause::WrongOrigin => "another site sent them",
            SkipCause::BadSite =>
                "they are for another site, or name one that the system does not have",
        }
    }

    /// A number with one bit set, a different one for each cause.
    fn bit(self) -> u64 {
        match self {
            SkipCause::TooLong => 1,
            SkipCause::NoMessage => 2,
            SkipCause::WrongOrigin => 4,
            SkipCause::BadSite => 8,
        }
    }
}

/// What happened on the links with one peer since the site started.
#[derive(Drop)]
pub struct LinkEvents {
    site: SiteId,
    /// Where events are logged, if they are.
    log: Option<Arc<LogQueue>>,
    counters: PeerCounters,
    /// Whether sending failed, and has not been resumed.
    failed: AtomicBool,
    /// How many milliseconds the next connection to the peer has to last before sending counts as resumed.
    patience: AtomicU64,
    /// For how many milliseconds nothing had been read of the peer at the last tick, if it was silent then; else 0.
    silent: AtomicU64,
    /// Whether entries are missing.
    lacking: AtomicBool,
    /// The causes for which lines were skipped since a line was last taken.
    skipping: AtomicU64,
}

impl LinkEvents {
    pub(crate) fn new(site: SiteId, log: Option<Arc<LogQueue>>) -> LinkEvents {
        LinkEvents {
            site,
            log,
            counters: PeerCounters::new(),
            failed: AtomicBool::new(false),
            patience: AtomicU64::new(0),
            silent: AtomicU64::new(0),
            lacking: AtomicBool::new(false),
            skipping: AtomicU64::new(0),
        }
    }

    /// The counters.
    pub fn counters(&self) -> &PeerCounters {
        &self.counters
    }

    /// Whether events are logged.
    pub(crate) fn are_logged(&self) -> bool {
        self.log.is_some()
    }

    /// Logs what happened, if events are logged.
    fn say<R: Wait, D: Display + Drop>(&self, rt: &R, event: D) {
        if let Some(log) = &self.log {
            log.put(rt, format_args!("peer {}: {}", self.site.number(), event));
        }
    }

    /// The peer's address cannot be resolved.
    pub(crate) fn has_no_address<R: Wait>(&self, rt: &R, address: &str) {
        self.say(
            rt,
            format_args!("its address cannot be resolved: {}", address),
        );
    }

    /// A connection is being read on which the peer sends lines.
    pub fn receives<R: Wait>(&self, rt: &R) {
        let is_new = !self.counters.is_receiving();
        self.counters.set_receiving(true);
        if is_new {
            self.say(rt, "receives from it");
        }
    }

    /// That connection ended.
    pub fn receives_no_more<R: Wait>(&self, rt: &R) {
        self.counters.set_receiving(false);
        self.say(rt, "receives from it no more");
    }

    /// A connection was made on which lines go to the peer. If the last one did not last, sending is not resumed yet.
    pub(crate) fn connects<R: Wait>(&self, rt: &R) {
        if !self.is_on_trial() {
            self.sends(rt);
        }
    }

    /// Whether it is still to be seen if the connection lasts: the far end of a tunnel may be dead, whose near end takes
    /// every connection.
    pub(crate) fn is_on_trial(&self) -> bool {
        self.patience.load(Ordering::Relaxed) > 0
    }

    /// The connection to the peer has lasted for so many milliseconds.
    pub(crate) fn lasts<R: Wait>(&self, rt: &R, time: u64) {
        if time >= self.patience.load(Ordering::Relaxed) {
            self.sends(rt);
        }
        if time >= MAX_PATIENCE {
            self.patience.store(0, Ordering::Relaxed);
        }
    }

    /// The connection to the peer broke after so many milliseconds.
    pub(crate) fn breaks<R: Wait>(&self, rt: &R, time: u64) {
        if time < MAX_PATIENCE {
            let patience = self.patience.load(Ordering::Relaxed);
            let longer = patience.saturating_mul(2).max(MIN_PATIENCE);
            self.patience
                .store(longer.min(MAX_PATIENCE), Ordering::Relaxed);
        }
        self.sends_no_more(rt, "a write failed");
    }

    /// Lines go to the peer.
    fn sends<R: Wait>(&self, rt: &R) {
        self.failed.store(false, Ordering::Relaxed);
        let is_new = !self.counters.is_sending();
        self.counters.set_sending(true);
        if is_new {
            self.say(rt, "sends to it");
        }
    }

    /// No connection to the peer is open, or none could be made. A line was lost with it.
    pub(crate) fn sends_no_more<R: Wait>(&self, rt: &R, cause: &str) {
        self.drops_line();
        self.counters.set_sending(false);
        if !self.failed.swap(true, Ordering::Relaxed) {
            self.say(rt, format_args!("sends to it no more: {}", cause));
        }
    }

    /// Whether the last connection to the peer ended, or could not be made.
    pub(crate) fn cannot_send(&self) -> bool {
        self.failed.load(Ordering::Relaxed)
    }

    /// At a tick, nothing had been read of the peer for so many milliseconds, which makes it silent; 0 if it is not.
    pub fn notes_silence<R: Wait>(&self, rt: &R, time: u64) {
        let before = self.silent.swap(time, Ordering::Relaxed);
        if (time > 0) == (before > 0) {
            return;
        }
        if time > 0 {
            self.say(
                rt,
                format_args!("silent: nothing came from it for {} milliseconds", time),
            );
        } else {
            self.say(rt, "silent no more");
        }
    }

    /// For how many milliseconds nothing had been read of the peer at the last tick, if it was silent then; else 0.
    pub fn silent(&self) -> u64 {
        self.silent.load(Ordering::Relaxed)
    }

    /// Lines for the peer are about to be made of a log that ends at this number.
    pub fn offers(&self, end: u64) {
        self.counters.note_offered(end);
    }

    /// Lines for the peer are about to be written to it.
    pub(crate) fn writes(&self) {
        self.counters.note_sent();
    }

    /// A line for the peer was lost.
    pub(crate) fn drops_line(&self) {
        self.counters.note_dropped(1);
    }

    /// A line of the peer was taken.
    pub fn takes(&self) {
        self.counters.note_lines(1, 0);
        if self.skipping.load(Ordering::Relaxed) != 0 {
            self.skipping.store(0, Ordering::Relaxed);
        }
    }

    /// A line of the peer was skipped.
    pub fn skips<R: Wait>(&self, rt: &R, cause: SkipCause) {
        self.counters.note_lines(1, 1);
        let bit = cause.bit();
        let is_new = self.skipping.fetch_or(bit, Ordering::Relaxed) & bit == 0;
        if is_new {
            self.say(rt, format_args!("skips lines: {}", cause.text()));
        }
    }

    /// Entries of the peer's log are missing, from the first number to the last.
    pub fn lacks<R: Wait>(&self, rt: &R, first: u64, last: u64) {
        if !self.lacking.swap(true, Ordering::Relaxed) {
            self.say(rt, format_args!("lacks {} to {} of its log", first, last));
        }
    }

    /// No entry is missing.
    pub fn lacks_nothing<R: Wait>(&self, rt: &R) {
        if self.lacking.load(Ordering::Relaxed) {
            self.lacking.store(false, Ordering::Relaxed);
            self.say(rt, "lacks nothing");
        }
    }

    /// The peer says that its log ends at a number below what was applied of it.
    pub fn goes_back<R: Wait>(&self, rt: &R, says: u64, applied: u64) {
        let is_new = self.counters.went_back() == 0;
        self.counters.note_went_back();
        if is_new {
            self.say(
                rt,
                format_args!(
                    "its log went back: it says {}, and {} were applied. It was started anew, or runs twice",
                    says, applied
                ),
            );
        }
    }
}
