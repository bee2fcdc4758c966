//! The time of a site that ticks by itself, as its threads share it.

use std::sync::atomic::{AtomicBool, AtomicU64, Ordering};

/// The latest time of the site, and how far the wall clock was behind it at the last tick, in milliseconds. No thread
/// reads a time that is less than one that was read before.
#[derive(Drop)]
pub struct SiteClock {
    latest: AtomicU64,
    behind: AtomicU64,
    /// Whether the last tick was refused.
    refused: AtomicBool,
}

impl SiteClock {
    pub(crate) fn new() -> SiteClock {
        SiteClock {
            latest: AtomicU64::new(0),
            behind: AtomicU64::new(0),
            refused: AtomicBool::new(false),
        }
    }

    /// The latest time; 0 if there is none yet.
    pub fn latest(&self) -> u64 {
        self.latest.load(Ordering::SeqCst)
    }

    /// Makes this the latest time if it is later, and returns the latest time.
    pub fn advance(&self, time: u64) -> u64 {
        // Threads read the clock for each command, so they write to what they share once for each millisecond.
        let latest = self.latest();
        if time <= latest {
            return latest;
        }
        self.latest.fetch_max(time, Ordering::SeqCst).max(time)
    }

    /// Records how far the wall clock is behind, and returns how far it was at the tick before.
    pub fn note_behind(&self, behind: u64) -> u64 {
        self.behind.swap(behind, Ordering::SeqCst)
    }

    /// Records whether the last tick was refused, and returns whether the one before was.
    pub fn note_refused(&self, is_refused: bool) -> bool {
        self.refused.swap(is_refused, Ordering::SeqCst)
    }

    /// How far the wall clock was behind at the last tick.
    pub fn behind(&self) -> u64 {
        self.behind.load(Ordering::SeqCst)
    }
}
