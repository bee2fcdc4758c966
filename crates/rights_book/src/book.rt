//! The book of rights of one site.
ghost use Rattle.std.specs.Prelude.{◌≡◌, ◌≢◌, ℕ, ◌+◌, ◌*◌, ◌-◌, ◌≤◌, pos, neg_ℤ, ◌≤ℤ◌, false, List, [], ◌∷◌, ◌++◌};
ghost use Rattle.std.specs.Prelude.{length, IfOk, MatchResult};
ghost use Rattle.std.specs.List.{list_any};
ghost use Rattle.rights_types.specs.Entries.{EntryValue};
ghost use Rattle.rights_types.specs.Chains.{moves_of, end, is_closed, AddsEntry};
ghost use Rattle.rights_types.specs.Rights.{issued, spent, out, to, taken_back, back, held, received, sum_sites};
ghost use Rattle.rights_types.specs.Rights.{IsNeverShort};

use crate::account::Account;
use crate::check::{any_above, covers, gifts_to};
use crate::fault::BookError;
use crate::peer::{Peer, add_gifts, add_own};
use crate::sums::SiteSums;
use rights_types::{
    Entry, MAX_HELD_RIGHTS, MAX_MOVES, MAX_NUMBER, MAX_RECEIVED, MAX_SITES, MAX_TOTAL, MIN_SITES,
    Move, OutOfMemory, SiteId,
};
use std::alloc::{Allocator, Global};
use std::marker::Model;

/// The most rights that a book can know a site to have: 17 * 10^18, the most that a site holds, and the greatest
/// reclaims that a log has numbers for.
pub const MAX_KNOWN: u128 = 1_000_000_017_000_000_000_000_000_000;

/// What one site holds, gave and received, and what it knows of the others: sums over its own log and over the entries
/// of the others that it applied. The rights are those of the Bounded Counter (Balegas and others, SRDS 2015) with
/// bound 0; reclaiming is this project's own.
///
/// Readers take constant time however long the logs are, and only `new` allocates.
#[derive(Drop)]
pub struct Book<A: Allocator = Global> {
    peers: Vec<Peer, A>,
    me: SiteId,
    own: Account,
}

impl<A: Allocator> Model for Book<A> {
    ghost use Rattle.rights_book.specs.Books.{BookValue, IsBook};

    ghost Value = { BookValue };

    ghost view = { λ b. record { me = b.me; own = b.own; peers = b.peers.items } };

    ghost invariant = { λ b. IsBook (record { me = b.me; own = b.own; peers = b.peers.items }) };
}

impl<A: Allocator> Book<A> {
    ghost use Rattle.rights_book.specs.Books.{sites, peer, account, received_by, held_by, known_by, new_book, Writes};
    ghost use Rattle.rights_book.specs.Books.{Applies, IsBook};
    ghost use Rattle.rights_book.specs.Leaves.{OwnLeaves, ApplyLeaves};
    ghost use Rattle.rights_book.specs.Checks.{gives_to_closed, check_fault};
    ghost use Rattle.rights_book.specs.Known.{logs_at, known};
    ghost use Rattle.rights_book.specs.Sums.{sums_by, sums_of};
    ghost use Rattle.rights_book.specs.StandsFor.{StandsForOwn, StandsForApplied, StandsFor, own_entry};

    /// The book of site `me` in a system of `sites` sites, 2 to 16, before anything was written or applied.
    /// `OutOfMemory` if its memory is refused.
    pub fn new(alloc: A, me: SiteId, sites: u64) -> Result<Book<A>, OutOfMemory>
        requires sites { (MIN_SITES ≤ sites) × (sites ≤ MAX_SITES) }
        requires me { me ≤ sites }
        ensures made { IfOk result (λ book. book ≡ new_book me sites) }
        ensures system { IfOk result (λ book. (book.me ≡ me) × (length book.peers ≡ sites)) }
        ensures stands { IfOk result (StandsFor [] (λ o. [])) }
    {
        // For the proof: a site's number is at least 1.
        let _ = me.number();
        let mut peers = Vec::with_capacity(alloc, sites as usize)?;
        for _site in 0..sites {
            peers.push(Peer::new())?;
        }
        Ok(Book {
            me,
            own: Account::new(),
            peers,
        })
    }

    /// Checks whether the book's site may write these moves as its next entry; `BookError` has the order. Not checked
    /// here: how many moves there are, whether the log is open and has numbers for them, and what they reclaim.
    /// Closing moves pass.
    #[tactic(auto, unfolding(crate::specs::Checks::check_fault))]
    pub fn check(&self, moves: &[Move]) -> Result<(), BookError>
        ensures { MatchResult result
            (λ _. check_fault self.now moves.now ≡ None)
            (λ fault. check_fault self.now moves.now ≡ Some fault) }
    {
        if any_above(moves, self.sites()) {
            return Err(BookError::NoSuchSite);
        }
        if Move::any_names(moves, self.me) {
            return Err(BookError::SameSite);
        }
        if self.any_gives_to_closed(moves) {
            return Err(BookError::PeerClosed);
        }
        if !covers(self.held(), moves) {
            return Err(BookError::Short);
        }
        Ok(())
    }

    /// Books the next entry of the site's own log. A closing move closes it, at whatever position it is.
    #[inline(always)]
    pub fn own(&mut self, moves: &[Move])
        requires checked { check_fault self.old moves.now ≡ None }
        requires some { 1 ≤ length moves.now }
        requires few { length moves.now ≤ MAX_MOVES }
        requires number { self.old.own.end + length moves.now ≤ MAX_NUMBER }
        requires unclosed { self.old.own.closed ≡ false }
        requires back { (j : ℕ) → back j moves.now ≤ (peer self.old j).given - (peer self.old j).back }
        ensures writes { Writes self.old moves.now self.new }
        ensures leaves { OwnLeaves self.old moves.now self.new }
        ensures stands_own { (log : List EntryValue) → StandsForOwn log self.old
            → StandsForOwn (log ++ own_entry self.old moves.now ∷ []) self.new }
        ensures stands_applied { (applied : ℕ → List EntryValue) → StandsForApplied applied self.old
            → StandsForApplied applied self.new }
    {
        // For the proof: each amount and peer is in its range.
        Move::all_in_range(moves);
        self.own.add(moves);
        add_own(&mut self.peers, moves);
    }

    /// Books the next entry of the origin's log. Its moves count as the origin's, whatever site the entry names; gifts
    /// to the origin itself, and to sites that the system does not have, are ignored.
    pub fn apply<B: Allocator>(&mut self, origin: SiteId, entry: &Entry<B>)
        requires site { origin ≤ sites self.old }
        requires other { origin ≢ self.old.me }
        requires unclosed { (peer self.old origin).log.closed ≡ false }
        requires next { entry.now.prev ≡ (peer self.old origin).log.end }
        ensures applies { Applies self.old origin entry.now.moves self.new }
        ensures leaves { ApplyLeaves self.old origin entry.now self.new }
        ensures stands_own { (log : List EntryValue) → StandsForOwn log self.old → StandsForOwn log self.new }
        ensures stands_applied { (applied later : ℕ → List EntryValue) → StandsForApplied applied self.old
            → AddsEntry applied origin entry.now later → StandsForApplied later self.new }
    {
        let moves = entry.moves();
        add_gifts(&mut self.peers, origin, moves);
        let peer = &mut self.peers[origin.index()];
        peer.received += gifts_to(moves, self.me);
        peer.log.add(moves);
    }

    /// The site whose book it is.
    pub fn me(&self) -> SiteId
        ensures value { result ≡ self.now.me }
        ensures range { (1 ≤ result) × (result ≤ sites self.now) }
    {
        self.me
    }

    /// How many sites the system has, from 2 to 16.
    pub fn sites(&self) -> u64
        ensures value { result ≡ sites self.now }
        ensures range { (MIN_SITES ≤ result) × (result ≤ MAX_SITES) }
    {
        self.peers.len() as u64
    }

    /// The number of the last entry of that site's log that was applied, at most 10^9. It is 0 if none was, for the
    /// book's own site, and for a site that the system does not have.
    pub fn applied(&self, origin: SiteId) -> u64
        ensures value { result ≡ (peer self.now origin).log.end }
        ensures range { result ≤ MAX_NUMBER }
        ensures itself { origin ≡ self.now.me → result ≡ 0 }
        ensures stands { (applied : ℕ → List EntryValue) → StandsForApplied applied self.now
            → result ≡ end (applied origin) }
    {
        self.peer(origin).log.end
    }

    /// The number of the last entry of the site's own log, at most 10^9.
    pub fn number(&self) -> u64
        ensures value { result ≡ self.now.own.end }
        ensures range { result ≤ MAX_NUMBER }
        ensures stands { (log : List EntryValue) → StandsForOwn log self.now → result ≡ end log }
    {
        self.own.end
    }

    /// The rights that the site holds, at most 17 * 10^18.
    pub fn held(&self) -> u64
        ensures value { result ≡ held_by self.now }
        ensures range { result ≤ MAX_HELD_RIGHTS }
        ensures valid { IsBook self.now }
        ensures balance { result + self.now.own.given + self.now.own.spent
            ≡ self.now.own.issued + sum_sites (sites self.now) (λ o. (peer self.now o).received) + self.now.own.back }
        ensures itself { pos result ≡ known_by self.now self.now.me }
        ensures stands { (log : List EntryValue) (applied : ℕ → List EntryValue) → StandsFor log applied self.now
            → result ≡ held (sites self.now) self.now.me log applied }
        ensures stands_known { (log : List EntryValue) (applied : ℕ → List EntryValue) → StandsFor log applied self.now
            → pos result ≡ known (sites self.now) self.now.me (logs_at self.now.me log applied) }

        // No prefix of the log, even one that ends within its last entry, gives or spends what was not held.
        ensures never_short { (log : List EntryValue) (applied : ℕ → List EntryValue) → StandsFor log applied self.now
            → IsNeverShort (sites self.now) (received (sites self.now) self.now.me applied) (moves_of log) }
    {
        let own = &self.own;
        own.issued + self.received() + own.back as u64 - own.given - own.spent
    }

    /// What all other sites gave to this one, in the entries that were applied; at most 15 * 10^18.
    pub fn received(&self) -> u64
        ensures value { result ≡ received_by self.now }
        ensures sum { result ≡ sum_sites (sites self.now) (λ o. (peer self.now o).received) }
        ensures range { result ≤ MAX_RECEIVED }
        ensures stands { (applied : ℕ → List EntryValue) → StandsForApplied applied self.now
            → result ≡ received (sites self.now) self.now.me applied }
    {
        self.peer(self.me).gifts
    }

    /// What that site gave to this one, in the entries that were applied.
    pub fn received_from(&self, origin: SiteId) -> u64
        ensures value { result ≡ (peer self.now origin).received }
        ensures range { result ≤ MAX_TOTAL }
        ensures stands { (applied : ℕ → List EntryValue) → StandsForApplied applied self.now
            → result ≡ to self.now.me (moves_of (applied origin)) }
    {
        self.peer(origin).received
    }

    /// What this site gave to that one, reclaimed or not.
    pub fn given_to(&self, site: SiteId) -> u64
        ensures value { result ≡ (peer self.now site).given }
        ensures range { result ≤ MAX_TOTAL }
        ensures stands { (log : List EntryValue) → StandsForOwn log self.now → result ≡ to site (moves_of log) }
    {
        self.peer(site).given
    }

    /// What this site gave to all others, reclaimed or not.
    pub fn given(&self) -> u64
        ensures value { result ≡ self.now.own.given }
        ensures sum { result ≡ sum_sites (sites self.now) (λ j. (peer self.now j).given) }
        ensures range { result ≤ MAX_TOTAL }
        ensures stands { (log : List EntryValue) → StandsForOwn log self.now → result ≡ out (moves_of log) }
    {
        self.own.given
    }

    /// What this site reclaimed from that one, at most what it gave to it.
    pub fn back(&self, site: SiteId) -> u64
        ensures value { result ≡ (peer self.now site).back }
        ensures range { result ≤ (peer self.now site).given }
        ensures stands { (log : List EntryValue) → StandsForOwn log self.now → result ≡ back site (moves_of log) }
    {
        self.peer(site).back
    }

    /// What this site reclaimed from all others, at most what it gave to them.
    pub fn taken_back(&self) -> u64
        ensures value { result ≡ self.now.own.back }
        ensures sum { result ≡ sum_sites (sites self.now) (λ j. (peer self.now j).back) }
        ensures range { result ≤ self.now.own.given }
        ensures stands { (log : List EntryValue) → StandsForOwn log self.now → result ≡ taken_back (moves_of log) }
    {
        self.own.back as u64
    }

    /// The rights that the site's own log issued.
    pub fn issued(&self) -> u64
        ensures value { result ≡ self.now.own.issued }
        ensures range { result ≤ MAX_TOTAL }
        ensures stands { (log : List EntryValue) → StandsForOwn log self.now → result ≡ issued (moves_of log) }
    {
        self.own.issued
    }

    /// The rights that the site's own log spent.
    pub fn spent(&self) -> u64
        ensures value { result ≡ self.now.own.spent }
        ensures range { result ≤ MAX_TOTAL }
        ensures stands { (log : List EntryValue) → StandsForOwn log self.now → result ≡ spent (moves_of log) }
    {
        self.own.spent
    }

    /// The rights of that site as far as this book knows, by its own log and what it applied. Negative if the site
    /// used gifts that were not applied here yet.
    pub fn known(&self, site: SiteId) -> i128
        ensures value { result ≡ known_by self.now site }
        ensures itself { site ≡ self.now.me → result ≡ pos (held_by self.now) }
        ensures range { (neg_ℤ (pos (2 * MAX_TOTAL)) ≤ℤ result) × (result ≤ℤ pos MAX_KNOWN) }
        ensures stands { (log : List EntryValue) (applied : ℕ → List EntryValue) → StandsFor log applied self.now
            → site ≤ sites self.now → result ≡ known (sites self.now) site (logs_at self.now.me log applied) }
    {
        let peer = self.peer(site);
        let log = self.account(site);
        let gained = log.issued as u128 + peer.gifts as u128 + peer.given as u128 + log.back;
        gained as i128 - (log.given + log.spent) as i128
    }

    /// Whether that site's log is closed, as far as it was applied; for the book's own site, whether its own log is.
    pub fn closed(&self, site: SiteId) -> bool
        ensures value { result ≡ (account self.now site).closed }
        ensures stands { (log : List EntryValue) (applied : ℕ → List EntryValue) → StandsFor log applied self.now
            → result ≡ is_closed (logs_at self.now.me log applied site) }
    {
        self.account(site).closed
    }

    /// What this book knows of that site: the sums of its log as far as it was applied, and what was given to it. For
    /// the book's own site, those of its own log.
    pub fn sums(&self, site: SiteId) -> SiteSums
        ensures value { result ≡ sums_by self.now site }
        ensures stands { (log : List EntryValue) (applied : ℕ → List EntryValue) → StandsFor log applied self.now
            → site ≤ sites self.now → result ≡ sums_of (sites self.now) site (logs_at self.now.me log applied) }
    {
        let peer = self.peer(site);
        let log = self.account(site);
        SiteSums {
            site,
            end: log.end,
            issued: log.issued,
            spent: log.spent,
            given: log.given,
            received: peer.gifts + peer.given,
            taken_back: log.back,
            closed: log.closed,
        }
    }

    fn peer(&self, site: SiteId) -> Peer
        ensures value { result ≡ peer self.now site }
        ensures valid { IsBook self.now }
        ensures range { 1 ≤ site }
    {
        match self.peers.get(site.index()) {
            Some(peer) => *peer,
            None => Peer::new(),
        }
    }

    fn account(&self, site: SiteId) -> Account
        ensures value { result ≡ account self.now site }
        ensures valid { IsBook self.now }
    {
        if site == self.me {
            self.own
        } else {
            self.peer(site).log
        }
    }

    fn any_gives_to_closed(&self, moves: &[Move]) -> bool
        ensures { result ≡ list_any (gives_to_closed self.now) moves.now }
    {
        moves.iter().any(|m| self.gives_to_closed(m))
    }

    fn gives_to_closed(&self, m: &Move) -> bool
        ensures { result ≡ gives_to_closed self.now m.now }
    {
        match m {
            Move::Grant {
                peer,
                amount: _,
                ask: _,
            } => self.closed(*peer),
            Move::Give { peer, amount: _ } => self.closed(*peer),
            _ => false,
        }
    }
}
