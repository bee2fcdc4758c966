//! The events of a world.
use rights_types::{Move, SiteId};
use site_core::Line;
use std::alloc::{Allocator, Global};
use std::marker::Model;

/// The moves of a post, in order. Any number of them: the desk checks the count.
#[derive(Drop)]
pub struct Moves<A: Allocator = Global> {
    items: Vec<Move, A>,
}

impl<A: Allocator> Model for Moves<A> {
    ghost use Rattle.std.specs.Prelude.{List};
    ghost use Rattle.rights_types.specs.declared.moves.Move.{Move};

    ghost Value = { List Move };

    ghost view = { λ m. m.items.items };
}

impl<A: Allocator> Moves<A> {
    ghost use Rattle.std.specs.Prelude.{◌≡◌};

    pub fn new(items: Vec<Move, A>) -> Moves<A>
        ensures { result ≡ items.items }
    {
        Moves { items }
    }

    pub fn as_slice(&self) -> &[Move]
        ensures { result.now ≡ self.now }
    {
        &self.items
    }
}

/// An event at a site, or on the link between two. The first site is the one where it happens.
#[derive(Drop)]
pub enum Event<A: Allocator = Global> {
    /// The site writes an entry of these moves.
    Post(SiteId, Moves<A>),
    /// The site creates this many rights.
    Issue(SiteId, u64),
    /// The site gives the other site this many rights.
    Give(SiteId, SiteId, u64),
    /// The site spends this many rights, or lets the spend wait until this deadline.
    Spend(SiteId, u64, u64),
    /// The site serves the spend at the front of its queue.
    Serve(SiteId),
    /// The site's spends whose deadlines are less than this time expire.
    Expire(SiteId, u64),
    /// Reads the outcome of the spend with this ticket.
    Status(SiteId, u64),
    /// The site plans which peers to ask for the rights that waiting spends lack.
    Plan(SiteId),
    /// The site sends its outstanding ask to the peer.
    Ask(SiteId, SiteId),
    /// The site sends its next entry to the peer.
    Publish(SiteId, SiteId),
    /// The site sends the peer the number of its log's end.
    Beat(SiteId, SiteId),
    /// The site queries the origin for the entries that it lacks: with `true` even if that gap was the last one asked
    /// for.
    Query(SiteId, SiteId, bool),
    /// The packet of this number, counted from 1, arrives at the site.
    Arrive(SiteId, u64),
    /// Bytes that no site sent arrive at the site, as a line of the origin.
    Noise(SiteId, SiteId, Line<A>),
    /// The site applies the next entry of the origin that its buffer has delivered.
    Take(SiteId, SiteId),
    /// The site closes. All that it holds goes to the heir, if one is named.
    Close(SiteId, Option<SiteId>),
}
