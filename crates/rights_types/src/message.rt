//! The messages between sites.
use crate::answer::Answer;
use crate::ask::Ask;
use crate::beat::Beat;
use crate::deny::Deny;
use crate::entry::Entry;
use crate::query::Query;
use crate::site::SiteId;
use std::alloc::{Allocator, Global};

/// The message that a line spells.
#[derive(Drop)]
pub enum Message<A: Allocator = Global> {
    /// An entry of its origin's log. Any site may read it.
    Push(Entry<A>),
    /// Asks an origin for entries.
    Query(Query),
    /// Answers a query.
    Answer(Answer<A>),
    /// The last number of a log. Any site may read it.
    Beat(Beat),
    /// Asks for rights.
    Ask(Ask),
    /// Denies an ask.
    Deny(Deny),
    /// The first line of a connection: the site that opened it.
    Hello(SiteId),
}
