//! Entries of one log, 64 at a time.

use rights_types::{Amount, Entry, Move, SiteId};
use std::alloc::Global;

/// The number of windows that arrive in one run.
pub(crate) const WINDOW_COUNT: u32 = 10_000;

/// The order in which the 64 entries of a window come.
#[derive(Clone, Copy)]
pub(crate) enum Order {
    /// First to last.
    Forward,
    /// Last to first.
    Backward,
    /// First to last, each three times.
    Thrice,
}

impl Order {
    /// How many entries arrive for each window.
    pub(crate) fn arrivals_per_window(self) -> u64 {
        match self {
            Order::Forward => 64,
            Order::Backward => 64,
            Order::Thrice => 192,
        }
    }
}

// An entry of site 1 that issues 1.
fn entry(alloc: Global, prev: u64) -> Option<Entry> {
    let mut moves = Vec::with_capacity(alloc, 1).ok()?;
    moves.push(Move::Issue(Amount::known(1))).ok()?;
    Entry::new(SiteId::known(1), prev, moves).ok()
}

/// The entries of a window in the order in which they come.
pub(crate) fn window(alloc: Global, order: Order, number: u32) -> Option<Vec<Entry>> {
    let mut entries = Vec::with_capacity(alloc, 192).ok()?;
    let first = number as u64 * 64;
    for k in 0..64u64 {
        match order {
            Order::Forward => entries.push(entry(alloc, first + k)?).ok()?,
            Order::Backward => entries.push(entry(alloc, first + 63 - k)?).ok()?,
            Order::Thrice => {
                for _ in 0..3u8 {
                    entries.push(entry(alloc, first + k)?).ok()?;
                }
            }
        }
    }
    Some(entries)
}
