//! The counters that threads share. Each is added to and read atomically, without a lock, so the values of several
//! counters need not belong to one moment.
use crossbeam_utils::CachePadded;
use refusals::{Answered, REFUSAL_COUNT, Refusal};
use std::sync::atomic::{AtomicBool, AtomicU64, Ordering};

/// How many clients may be connected at a time, each with a thread that counts its replies.
pub const CLIENTS: usize = 63;

/// How many threads may count replies: one for each client, and one for standard input.
pub const WRITERS: usize = CLIENTS + 1;

/// The commands that were answered, of all clients and of standard input, and how many of them were refused.
#[derive(Drop)]
pub struct Counters {
    /// One for each writer, which no other thread changes: an atomic addition for each command would be a tenth of what
    /// a spend costs. On one cache line the counters of two writers would slow both.
    commands: [CachePadded<AtomicU64>; WRITERS],
    refused: [AtomicU64; REFUSAL_COUNT],
}

impl Counters {
    pub fn new() -> Counters {
        Counters {
            commands: std::array::from_fn(|_| CachePadded::new(AtomicU64::new(0))),
            refused: std::array::from_fn(|_| AtomicU64::new(0)),
        }
    }

    /// Counts an answer of this writer, from 0 to `WRITERS` - 1. Only one thread at a time may count for a writer.
    pub fn note_answer(&self, writer: usize, answered: Answered) {
        if let Some(commands) = self.commands.get(writer) {
            let count = commands.load(Ordering::Relaxed).wrapping_add(1);
            commands.store(count, Ordering::Release);
        }
        match answered {
            Answered::Done => {}
            Answered::Refused(why) => self.note_refused(why),
        }
    }

    /// Counts a refusal that no reply reports, as of a tick of the site's own.
    pub fn note_refused(&self, why: Refusal) {
        add(&self.refused[why.index()], 1);
    }

    /// How many commands were answered.
    pub fn commands(&self) -> u64 {
        let mut sum: u64 = 0;
        for writer in 0..WRITERS {
            sum = sum.wrapping_add(self.commands[writer].load(Ordering::SeqCst));
        }
        sum
    }

    /// How many commands were refused, by the refusal's place in `REFUSALS`.
    pub fn refused(&self) -> [u64; REFUSAL_COUNT] {
        let mut refused = [0; REFUSAL_COUNT];
        for index in 0..REFUSAL_COUNT {
            refused[index] = self.refused[index].load(Ordering::SeqCst);
        }
        refused
    }
}

/// The counters of one peer, and which connections from it and to it are open.
#[derive(Drop)]
pub struct PeerCounters {
    lines: AtomicU64,
    refused: AtomicU64,
    dropped: AtomicU64,
    went_back: AtomicU64,
    /// Where the log ended when lines for the peer were last made of it.
    offered: AtomicU64,
    /// Where the log ended, as far as lines that were begun to be written to the peer can tell.
    sent: AtomicU64,
    receiving: AtomicBool,
    sending: AtomicBool,
}

impl PeerCounters {
    pub fn new() -> PeerCounters {
        PeerCounters {
            lines: AtomicU64::new(0),
            refused: AtomicU64::new(0),
            dropped: AtomicU64::new(0),
            went_back: AtomicU64::new(0),
            offered: AtomicU64::new(0),
            sent: AtomicU64::new(0),
            receiving: AtomicBool::new(false),
            sending: AtomicBool::new(false),
        }
    }

    /// Adds to the lines that came, and to those of them that were skipped.
    pub fn note_lines(&self, lines: u64, refused: u64) {
        add(&self.lines, lines);
        add(&self.refused, refused);
    }

    /// Adds to the lines that found no space in the outbox, or were lost by a failed connection or write.
    pub fn note_dropped(&self, lines: u64) {
        add(&self.dropped, lines);
    }

    /// Counts a beat with a number below what was applied of the peer's log.
    pub fn note_went_back(&self) {
        add(&self.went_back, 1);
    }

    /// Notes the end of the log for which lines to the peer are about to be made.
    pub fn note_offered(&self, end: u64) {
        self.offered.store(end, Ordering::SeqCst);
    }

    /// Notes that lines made for the peer are about to be written.
    pub fn note_sent(&self) {
        let offered = self.offered.load(Ordering::SeqCst);
        self.sent.store(offered, Ordering::SeqCst);
    }

    /// Notes whether a connection that the peer made is open.
    pub fn set_receiving(&self, stands: bool) {
        self.receiving.store(stands, Ordering::SeqCst);
    }

    /// Notes whether a connection over which lines are sent to the peer is open.
    pub fn set_sending(&self, stands: bool) {
        self.sending.store(stands, Ordering::SeqCst);
    }

    pub fn lines(&self) -> u64 {
        self.lines.load(Ordering::SeqCst)
    }

    pub fn refused(&self) -> u64 {
        self.refused.load(Ordering::SeqCst)
    }

    pub fn dropped(&self) -> u64 {
        self.dropped.load(Ordering::SeqCst)
    }

    pub fn went_back(&self) -> u64 {
        self.went_back.load(Ordering::SeqCst)
    }

    /// No line that was written to the peer told of the log beyond this number.
    pub fn sent(&self) -> u64 {
        self.sent.load(Ordering::SeqCst)
    }

    pub fn is_receiving(&self) -> bool {
        self.receiving.load(Ordering::SeqCst)
    }

    pub fn is_sending(&self) -> bool {
        self.sending.load(Ordering::SeqCst)
    }
}

fn add(counter: &AtomicU64, count: u64) {
    if count > 0 {
        counter.fetch_add(count, Ordering::SeqCst);
    }
}
