//! The values that a site reports of itself and of its peers, as plain numbers.
use refusals::REFUSAL_COUNT;
use rights_types::SiteId;

/// The values of a site at one moment.
#[derive(Clone, Copy)]
pub struct Metrics {
    /// The rights that the site holds.
    pub held: u64,
    /// The sum of the amounts of waiting spends.
    pub queued: u64,
    /// The rights that the site issued.
    pub issued: u64,
    /// The rights that the site spent.
    pub spent: u64,
    /// The rights that other sites gave to it, in entries that it applied.
    pub received: u64,
    /// The rights that it gave to other sites, reclaimed or not.
    pub given: u64,
    /// The rights that it reclaimed from sites that have closed.
    pub taken_back: u64,
    /// The own number of the log's last entry, 0 if there is none.
    pub log_number: u64,
    /// Whether the site has closed.
    pub closed: bool,
    /// The queue's slots that are taken by waiting spends.
    pub requests_waiting: u64,
    /// The queue's slots that are taken by outcomes that nobody has read.
    pub outcomes_unread: u64,
    /// How many seconds the wall clock is behind the site's time, rounded up.
    pub clock_behind: u64,
    /// The open HTTP connections.
    pub clients: u64,
    /// The commands that were answered, of all clients and of standard input.
    pub commands: u64,
    /// How many of these were refused, by the refusal's place in `REFUSALS`.
    pub refused: [u64; REFUSAL_COUNT],
    /// The log lines that were not written to standard error.
    pub log_lines_dropped: u64,
    /// `None` without a journal.
    pub journal: Option<JournalMetrics>,
}

/// The values of a journal at one moment.
#[derive(Clone, Copy)]
pub struct JournalMetrics {
    /// The records that were made for it, those of earlier processes among them.
    pub records: u64,
    /// How many of them are durable.
    pub durable: u64,
    /// The bytes of the file up to the last sync.
    pub bytes: u64,
    /// When that sync was, in seconds since 1970.
    pub synced: u64,
}

/// The values of one peer at one moment.
#[derive(Clone, Copy)]
pub struct PeerMetrics {
    pub site: SiteId,
    /// The own number of the last entry of the peer's log that was applied here; 0 if there is none.
    pub applied: u64,
    /// Whether entries of the peer are known to be missing.
    pub buffering: bool,
    /// How many entries of the peer are held until those arrive.
    pub held: u64,
    /// Whether a connection that the peer made is open.
    pub receiving: bool,
    /// Whether a connection over which lines are sent to the peer is open.
    pub sending: bool,
    /// For how many seconds nothing has come from the peer, if that makes it silent; else 0.
    pub silent: u64,
    /// The lines that came from the peer.
    pub lines: u64,
    /// How many of these were skipped.
    pub refused: u64,
    /// The lines for the peer that found no space in the outbox, or were lost by a failed connection or write.
    pub dropped: u64,
    /// The lines in the peer's outbox.
    pub waiting: u64,
    /// The beats of the peer with a number below what was applied of its log.
    pub went_back: u64,
}
