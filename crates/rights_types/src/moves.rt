//! The moves of an entry.
ghost use Rattle.std.specs.Prelude.{◌≡◌, ◌≤◌};
ghost use Rattle.std.specs.List.{All, list_any};
ghost use Rattle.rights_types.specs.Moves.{IsMove, is_close, peer_of, names, lacks_own_place, issue_of, spend_of};
ghost use Rattle.rights_types.specs.Moves.{gift_to, gain_of, cost_of};

use crate::amount::{Amount, AskNumber, Total};
use crate::frontier::Frontier;
use crate::limits::{MAX_AMOUNT, MAX_TOTAL};
use crate::site::SiteId;

/// A change of rights that a site writes into its log. The rights are those of the Bounded Counter (Balegas and
/// others, SRDS 2015); reclaiming is this project's own.
#[derive(Clone, Copy, Debug, PartialEq, Eq)]
pub enum Move {
    /// Creates rights.
    Issue(Amount),
    /// Consumes rights.
    Spend(Amount),
    /// Gives rights to a peer in answer to its numbered ask.
    Grant {
        peer: SiteId,
        amount: Amount,
        ask: AskNumber,
    },
    /// Gives rights to a peer that did not ask.
    Give {
        peer: SiteId,
        amount: Amount,
    },
    /// Closes the log without a frontier. It is read from the logs of older writers, and never written.
    Close,
    /// Closes the log, with the frontier: what this site had applied of each other log.
    CloseAt(Frontier),
    /// Reclaims rights that were in transit to a peer that has closed.
    TakeBack {
        peer: SiteId,
        amount: Total,
    },
}

impl Move {
    /// Whether it closes the log.
    pub fn is_close(&self) -> bool
        ensures { result ≡ is_close self.now }
    {
        match self {
            Move::Close => true,
            Move::CloseAt(_) => true,
            _ => false,
        }
    }

    /// The other site that it names, if any.
    pub fn peer(&self) -> Option<SiteId>
        ensures { result ≡ peer_of self.now }
    {
        match self {
            Move::Grant {
                peer,
                amount: _,
                ask: _,
            } => Some(*peer),
            Move::Give { peer, amount: _ } => Some(*peer),
            Move::TakeBack { peer, amount: _ } => Some(*peer),
            _ => None,
        }
    }

    /// Whether it names the site.
    pub fn names(&self, site: SiteId) -> bool
        ensures { result ≡ names site self.now }
    {
        match self.peer() {
            Some(peer) => peer == site,
            None => false,
        }
    }

    /// Whether any of these moves names the site.
    pub fn any_names(moves: &[Move], site: SiteId) -> bool
        ensures { result ≡ list_any (names site) moves.now }
    {
        moves.iter().any(|m| m.names(site))
    }

    /// Whether it is a frontier in which the origin's position is missing or not 0.
    pub fn lacks_own_place(&self, origin: SiteId) -> bool
        ensures { result ≡ lacks_own_place origin self.now }
    {
        match self {
            Move::CloseAt(frontier) => frontier.at(origin) != Some(0),
            _ => false,
        }
    }

    /// The rights that it creates.
    pub fn issued(&self) -> u64
        ensures value { result ≡ issue_of self.now }
        ensures range { result ≤ MAX_AMOUNT }
    {
        match self {
            Move::Issue(amount) => amount.value(),
            _ => 0,
        }
    }

    /// The rights that it consumes.
    pub fn spent(&self) -> u64
        ensures value { result ≡ spend_of self.now }
        ensures range { result ≤ MAX_AMOUNT }
    {
        match self {
            Move::Spend(amount) => amount.value(),
            _ => 0,
        }
    }

    /// The rights that it gives to the site.
    pub fn gift_to(&self, site: SiteId) -> u64
        ensures value { result ≡ gift_to site self.now }
        ensures range { result ≤ MAX_AMOUNT }
    {
        match self {
            Move::Grant {
                peer,
                amount,
                ask: _,
            } => { if *peer == site { amount.value() } else { 0 } }
            Move::Give { peer, amount } => { if *peer == site { amount.value() } else { 0 } }
            _ => 0,
        }
    }

    /// What it adds to the rights of its origin: what it issues or reclaims.
    pub fn gain(&self) -> u64
        ensures value { result ≡ gain_of self.now }
        ensures range { result ≤ MAX_TOTAL }
    {
        match self {
            Move::Issue(amount) => amount.value(),
            Move::TakeBack { peer: _, amount } => amount.value(),
            _ => 0,
        }
    }

    /// What it takes from the rights of its origin: what it spends or gives away.
    pub fn cost(&self) -> u64
        ensures value { result ≡ cost_of self.now }
        ensures range { result ≤ MAX_AMOUNT }
    {
        match self {
            Move::Spend(amount) => amount.value(),
            Move::Grant {
                peer: _,
                amount,
                ask: _,
            } => amount.value(),
            Move::Give { peer: _, amount } => amount.value(),
            _ => 0,
        }
    }

    /// For proofs: its values are in their ranges, as their types guarantee. It only reads each value, and has no
    /// effect.
    pub fn in_range(&self)
        ensures { IsMove self.now }
    {
        match self {
            Move::Issue(amount) => {
                let _ = amount.value();
            }
            Move::Spend(amount) => {
                let _ = amount.value();
            }
            Move::Grant { peer, amount, ask } => {
                let _ = peer.number();
                let _ = amount.value();
                let _ = ask.value();
            }
            Move::Give { peer, amount } => {
                let _ = peer.number();
                let _ = amount.value();
            }
            Move::Close => {}
            Move::CloseAt(frontier) => {
                let _ = frontier.count();
            }
            Move::TakeBack { peer, amount } => {
                let _ = peer.number();
                let _ = amount.value();
            }
        }
    }

    /// For proofs: the same for each of these moves.
    pub fn all_in_range(moves: &[Move])
        ensures { All IsMove moves.now }
    {
        for m in moves {
            m.in_range();
        }
    }
}
