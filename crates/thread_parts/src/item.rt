//! What travels on a lane.
use rights_types::Entry;
use std::alloc::{Allocator, Global};

/// What travels on a lane: the entries of one log in order, and then End.
#[derive(Drop)]
pub enum Item<A: Allocator = Global> {
    /// The next entry.
    Entry(Entry<A>),
    /// The end: no item comes after it.
    End,
}
