//! What a book knows of each site.
ghost use Rattle.std.specs.Prelude.{◌≡◌, ℕ, ◌+◌, ◌*◌, ◌≤◌, ◌==◌, if◌then◌else◌, length};
ghost use Rattle.std.specs.List.{All};
ghost use Rattle.rights_types.specs.Moves.{IsMove, NamesWithin, take_back_from};
ghost use Rattle.rights_types.specs.Rights.{back};
ghost use Rattle.rights_types.specs.Places.{at_site};
ghost use Rattle.rights_book.specs.Peers.{no_peer, with_own_move, with_own, with_gift, with_move_gift, with_gifts};

use crate::account::Account;
use rights_types::{Amount, MAX_MOVES, MAX_RECEIVED, MAX_TOTAL, Move, SiteId};

/// What a book knows of one site. For the book's own site it has only the gifts to it.
#[derive(Clone, Copy)]
pub(crate) struct Peer {
    /// What it gave to the book's site.
    pub(crate) received: u64,
    /// What sites gave to it in the entries that were applied.
    pub(crate) gifts: u64,
    /// What the book's site gave to it.
    pub(crate) given: u64,
    /// What the book's site reclaimed from it.
    pub(crate) back: u64,
    /// The sums of what was applied of the site's log.
    pub(crate) log: Account,
}

impl Peer {
    /// A site of which nothing is known yet.
    pub(crate) fn new() -> Peer
        ensures { result ≡ no_peer }
    {
        Peer {
            log: Account::new(),
            received: 0,
            gifts: 0,
            given: 0,
            back: 0,
        }
    }
}

/// Books what these moves of the book's own site give to, and reclaim from, each site.
pub(crate) fn add_own(peers: &mut [Peer], moves: &[Move])
    requires named { All (NamesWithin (length peers.old)) moves.now }
    requires few { length moves.now ≤ MAX_MOVES }
    requires ranges { All IsMove moves.now }
    requires given { (j : ℕ) → (at_site peers.old j no_peer).given ≤ MAX_TOTAL }
    requires back { (j : ℕ) → (at_site peers.old j no_peer).back + back j moves.now ≤ MAX_TOTAL }
    ensures { (j : ℕ) → at_site peers.new j no_peer ≡ with_own (at_site peers.old j no_peer) j moves.now }
{
    for m in moves {
        add_own_move(peers, m);
    }
}

fn add_own_move(peers: &mut [Peer], m: &Move)
    requires named { NamesWithin (length peers.old) m.now }
    requires given { (j : ℕ) → (at_site peers.old j no_peer).given ≤ 2 * MAX_TOTAL }
    requires back { (j : ℕ) → (at_site peers.old j no_peer).back + take_back_from j m.now ≤ MAX_TOTAL }
    ensures { (j : ℕ) → at_site peers.new j no_peer ≡ with_own_move (at_site peers.old j no_peer) j m.now }
{
    match m {
        Move::Grant {
            peer,
            amount,
            ask: _,
        } => peers[peer.index()].given += amount.value(),
        Move::Give { peer, amount } => peers[peer.index()].given += amount.value(),
        Move::TakeBack { peer, amount } => peers[peer.index()].back += amount.value(),
        _ => {}
    }
}

/// Books what these moves of the origin give to each other site.
pub(crate) fn add_gifts(peers: &mut [Peer], origin: SiteId, moves: &[Move])
    requires few { length moves.now ≤ MAX_MOVES }
    requires ranges { All IsMove moves.now }
    requires fits { (j : ℕ) → 1 ≤ j → j ≤ length peers.old → (at_site peers.old j no_peer).gifts ≤ MAX_RECEIVED }
    ensures { (j : ℕ) → 1 ≤ j → j ≤ length peers.old →
        at_site peers.new j no_peer ≡ with_gifts (at_site peers.old j no_peer) origin j moves.now }
{
    for m in moves {
        add_move_gift(peers, origin, m);
    }
}

fn add_move_gift(peers: &mut [Peer], origin: SiteId, m: &Move)
    requires { (j : ℕ) → 1 ≤ j → j ≤ length peers.old → (at_site peers.old j no_peer).gifts ≤ MAX_RECEIVED + MAX_TOTAL }
    ensures { (j : ℕ) → 1 ≤ j → j ≤ length peers.old →
        at_site peers.new j no_peer ≡ with_move_gift (at_site peers.old j no_peer) origin j m.now }
{
    match m {
        Move::Grant {
            peer,
            amount,
            ask: _,
        } => add_gift(peers, origin, *peer, *amount),
        Move::Give { peer, amount } => add_gift(peers, origin, *peer, *amount),
        _ => {}
    }
}

// Ignores a gift to the origin itself, or to a site outside the system.
fn add_gift(peers: &mut [Peer], origin: SiteId, peer: SiteId, amount: Amount)
    requires { (j : ℕ) → 1 ≤ j → j ≤ length peers.old → (at_site peers.old j no_peer).gifts ≤ MAX_RECEIVED + MAX_TOTAL }
    ensures { (j : ℕ) → 1 ≤ j → j ≤ length peers.old →
        at_site peers.new j no_peer
        ≡ with_gift (at_site peers.old j no_peer) origin j (if peer == j then amount else 0) }
{
    if peer != origin && peer.index() < peers.len() {
        peers[peer.index()].gifts += amount.value();
    }
}
