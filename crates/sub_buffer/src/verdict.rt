//! The verdicts of a buffer on the entries that are offered to it.

use rights_types::Entry;
use std::alloc::{Allocator, Global};

/// The verdict of a buffer on an entry of its origin. With one writer `AfterClose` never comes, since all entries of a
/// closed log are repeats.
#[derive(Drop)]
pub enum Verdict<A: Allocator = Global> {
    /// It is the next entry, and is delivered here. Held entries may have become next: see `pop_ready`.
    Ready(Entry<A>),
    /// It is kept until the entries before it have come.
    Held,
    /// It begins before the last number that was delivered, or at the number where a held one begins.
    Repeat,
    /// The log was closed before this entry.
    AfterClose,
    /// It is later than the next entry, and 64 entries are already held: it is dropped.
    Full,
}

/// Why an entry is refused without a verdict.
#[derive(Clone, Copy, Debug, PartialEq, Eq)]
pub enum BufferError {
    /// It is of another origin.
    WrongOrigin,
}
