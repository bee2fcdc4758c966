//! What a desk reports of its site.
ghost use Rattle.std.specs.Prelude.{◌≡◌, ◌≢◌, ℕ, ◌+◌, ◌*◌, ◌≤◌, true, pos, List, [], length};
ghost use Rattle.rights_types.specs.Entries.{EntryValue};
ghost use Rattle.rights_types.specs.Chains.{end, is_closed, moves_of, IsChain};
ghost use Rattle.rights_types.specs.Rights.{issued, spent, out, to, back, taken_back, held, received, sum_sites};
ghost use Rattle.rights_types.specs.Rights.{IsNeverShort};
ghost use Rattle.rights_types.specs.declared.limits.TheConstants.{MIN_SITES, MAX_SITES, MAX_NUMBER, MAX_AMOUNT};
ghost use Rattle.rights_types.specs.declared.limits.TheConstants.{MAX_TOTAL, MAX_RECEIVED, MAX_HELD_RIGHTS};
ghost use Rattle.transfer_manager.specs.Managers.{sites as asked_sites};
ghost use Rattle.rights_book.specs.Books.{sites, peer, account, received_by, held_by, known_by};
ghost use Rattle.rights_book.specs.Known.{logs_at, known};
ghost use Rattle.rights_book.specs.Sums.{sums_by, sums_of};
ghost use Rattle.rights_book.specs.StandsFor.{StandsForOwn, StandsForApplied};
ghost use Rattle.request_queue.specs.Queues.{total_of};
ghost use Rattle.request_queue.specs.declared.queue.TheConstants.{SLOTS};
ghost use Rattle.site_core.specs.Ledgers.{HasApplied};
ghost use Rattle.site_core.specs.Desks.{grant_count};
ghost use Rattle.site_core.specs.Faults.{has_closed};

use crate::desk::Desk;
use origin_log::OriginLog;
use request_queue::{Request, SLOTS};
use rights_book::SiteSums;
use rights_types::{
    MAX_AMOUNT, MAX_HELD_RIGHTS, MAX_NUMBER, MAX_RECEIVED, MAX_SITES, MAX_TOTAL, MIN_SITES, SiteId,
};
use std::alloc::Allocator;

impl<A: Allocator + Copy> Desk<A> {
    /// The site.
    pub fn site(&self) -> SiteId
        ensures value { result ≡ self.now.ledger.log.site }
        ensures booked { result ≡ self.now.ledger.book.me }
        ensures range { (1 ≤ result) × (result ≤ sites self.now.ledger.book) }
    {
        self.ledger.book().me()
    }

    /// How many sites the system has, from 2 to 16.
    pub fn sites(&self) -> u64
        ensures value { result ≡ sites self.now.ledger.book }
        ensures asked { result ≡ asked_sites self.now.manager }
        ensures range { (MIN_SITES ≤ result) × (result ≤ MAX_SITES) }
    {
        self.ledger.book().sites()
    }

    /// The log: a chain, in which no ask is granted twice.
    pub fn log(&self) -> &OriginLog<A>
        ensures value { result.now ≡ self.now.ledger.log }
        ensures chain { IsChain self.now.ledger.log.site self.now.ledger.log.entries }
        ensures once { (j a : ℕ) → grant_count j a (moves_of self.now.ledger.log.entries) ≤ 1 }
        ensures stands { StandsForOwn self.now.ledger.log.entries self.now.ledger.book }
    {
        let log = self.ledger.log();
        // For the proof: a log is a chain.
        let _ = log.end();
        log
    }

    /// The own number of the log's last entry, 0 if there is none.
    pub fn number(&self) -> u64
        ensures value { result ≡ end self.now.ledger.log.entries }
        ensures range { result ≤ MAX_NUMBER }
    {
        self.ledger.log().end()
    }

    /// The rights that are held, at most 17 * 10^18.
    pub fn held(&self) -> u64
        ensures value { result ≡ held_by self.now.ledger.book }
        ensures range { result ≤ MAX_HELD_RIGHTS }
        ensures balance { result + out (moves_of self.now.ledger.log.entries)
            + spent (moves_of self.now.ledger.log.entries)
            ≡ issued (moves_of self.now.ledger.log.entries) + sum_sites (sites self.now.ledger.book)
            (λ o. (peer self.now.ledger.book o).received) + taken_back (moves_of self.now.ledger.log.entries) }
        ensures applied { (applied : ℕ → List EntryValue) → StandsForApplied applied self.now.ledger.book
            → result ≡ held (sites self.now.ledger.book) self.now.ledger.log.site self.now.ledger.log.entries applied }

        // No prefix of the log, even one that ends within its last entry, gives or spends what was not held.
        ensures never_short { (applied : ℕ → List EntryValue) → StandsForApplied applied self.now.ledger.book
            → IsNeverShort (sites self.now.ledger.book)
            (received (sites self.now.ledger.book) self.now.ledger.log.site applied)
            (moves_of self.now.ledger.log.entries) }
    {
        self.ledger.book().held()
    }

    /// The rights that the log issued.
    pub fn issued(&self) -> u64
        ensures value { result ≡ issued (moves_of self.now.ledger.log.entries) }
        ensures booked { result ≡ self.now.ledger.book.own.issued }
        ensures range { result ≤ MAX_TOTAL }
    {
        self.ledger.book().issued()
    }

    /// The rights that the log spent.
    pub fn spent(&self) -> u64
        ensures value { result ≡ spent (moves_of self.now.ledger.log.entries) }
        ensures booked { result ≡ self.now.ledger.book.own.spent }
        ensures range { result ≤ MAX_TOTAL }
    {
        self.ledger.book().spent()
    }

    /// The rights that the log gave to all others, reclaimed or not.
    pub fn given(&self) -> u64
        ensures value { result ≡ out (moves_of self.now.ledger.log.entries) }
        ensures booked { result ≡ self.now.ledger.book.own.given }
        ensures range { result ≤ MAX_TOTAL }
    {
        self.ledger.book().given()
    }

    /// The rights that the log reclaimed from all others.
    pub fn taken_back(&self) -> u64
        ensures value { result ≡ taken_back (moves_of self.now.ledger.log.entries) }
        ensures booked { result ≡ self.now.ledger.book.own.back }
        ensures range { result ≤ self.now.ledger.book.own.given }
    {
        self.ledger.book().taken_back()
    }

    /// What all other sites gave to this one, in the entries that were applied; at most 15 * 10^18.
    pub fn received(&self) -> u64
        ensures value { result ≡ received_by self.now.ledger.book }
        ensures sum { result ≡ sum_sites (sites self.now.ledger.book) (λ o. (peer self.now.ledger.book o).received) }
        ensures range { result ≤ MAX_RECEIVED }
        ensures applied { (applied : ℕ → List EntryValue) → StandsForApplied applied self.now.ledger.book
            → result ≡ received (sites self.now.ledger.book) self.now.ledger.log.site applied }
    {
        self.ledger.book().received()
    }

    /// What that site gave to this one, in the entries that were applied.
    pub fn received_from(&self, origin: SiteId) -> u64
        ensures value { result ≡ (peer self.now.ledger.book origin).received }
        ensures range { result ≤ MAX_TOTAL }
        ensures applied { (applied : ℕ → List EntryValue) → StandsForApplied applied self.now.ledger.book
            → result ≡ to self.now.ledger.log.site (moves_of (applied origin)) }
    {
        self.ledger.book().received_from(origin)
    }

    /// What this site gave to that one, reclaimed or not.
    pub fn given_to(&self, site: SiteId) -> u64
        ensures value { result ≡ to site (moves_of self.now.ledger.log.entries) }
        ensures booked { result ≡ (peer self.now.ledger.book site).given }
        ensures range { result ≤ MAX_TOTAL }
    {
        self.ledger.book().given_to(site)
    }

    /// What this site reclaimed from that one, which has closed.
    pub fn back(&self, site: SiteId) -> u64
        ensures value { result ≡ back site (moves_of self.now.ledger.log.entries) }
        ensures booked { result ≡ (peer self.now.ledger.book site).back }
        ensures range { result ≤ (peer self.now.ledger.book site).given }
    {
        self.ledger.book().back(site)
    }

    /// The sum of the amounts of all waiting spends. At a closed site none waits.
    pub fn queued(&self) -> u64
        ensures value { result ≡ total_of self.now.queue.waiting }
        ensures range { result ≤ SLOTS * MAX_AMOUNT }
        ensures idle { has_closed self.now ≡ true → self.now.queue.waiting ≡ [] }
        ensures few { length self.now.queue.waiting ≤ SLOTS }
    {
        self.queue.total()
    }

    /// The waiting spends, the oldest first.
    pub fn requests(&self) -> &[Request]
        ensures { result.now ≡ self.now.queue.waiting }
    {
        self.queue.requests()
    }

    /// How many spends wait. Each takes a slot of the queue.
    pub fn requests_waiting(&self) -> usize
        ensures value { result ≡ length self.now.queue.waiting }
        ensures range { result ≤ SLOTS }
    {
        self.queue.waiting()
    }

    /// How many outcomes have not been read yet. Each takes a slot of the queue.
    pub fn outcomes_unread(&self) -> usize
        ensures value { result ≡ length self.now.queue.outcomes }
        ensures range { length self.now.queue.waiting + result ≤ SLOTS }
    {
        self.queue.unread()
    }

    /// The rights of that site as far as this site knows, by its own log and what it applied. Negative if that site
    /// used gifts that were not applied here yet.
    pub fn known(&self, site: SiteId) -> i128
        ensures value { result ≡ known_by self.now.ledger.book site }
        ensures itself { site ≡ self.now.ledger.log.site → result ≡ pos (held_by self.now.ledger.book) }
        ensures applied { (applied : ℕ → List EntryValue) → StandsForApplied applied self.now.ledger.book
            → site ≤ sites self.now.ledger.book
            → result ≡ known (sites self.now.ledger.book) site
            (logs_at self.now.ledger.log.site self.now.ledger.log.entries applied) }
    {
        self.ledger.book().known(site)
    }

    /// Whether that site has closed, as far as its log was applied; for this site, whether it has closed.
    pub fn closed(&self, site: SiteId) -> bool
        ensures value { result ≡ (account self.now.ledger.book site).closed }
        ensures itself { site ≡ self.now.ledger.log.site → result ≡ has_closed self.now }
        ensures other { site ≢ self.now.ledger.log.site → result ≡ (peer self.now.ledger.book site).log.closed }
        ensures applied { (applied : ℕ → List EntryValue) → StandsForApplied applied self.now.ledger.book
            → result ≡ is_closed (logs_at self.now.ledger.log.site self.now.ledger.log.entries applied site) }
    {
        self.ledger.book().closed(site)
    }

    /// The number of the last entry of that site's log that was applied. It is 0 if none was, for the site itself, and
    /// for a site that the system does not have.
    pub fn applied(&self, origin: SiteId) -> u64
        ensures value { result ≡ (peer self.now.ledger.book origin).log.end }
        ensures range { result ≤ MAX_NUMBER }
        ensures applied { (applied : ℕ → List EntryValue) → StandsForApplied applied self.now.ledger.book
            → result ≡ end (applied origin) }
    {
        self.ledger.book().applied(origin)
    }

    /// What this site knows of that one: the sums of its log as far as it was applied, and what was given to it.
    pub fn sums(&self, site: SiteId) -> SiteSums
        ensures value { result ≡ sums_by self.now.ledger.book site }
        ensures applied { (applied : ℕ → List EntryValue) → StandsForApplied applied self.now.ledger.book
            → site ≤ sites self.now.ledger.book
            → result ≡ sums_of (sites self.now.ledger.book) site
            (logs_at self.now.ledger.log.site self.now.ledger.log.entries applied) }
    {
        self.ledger.book().sums(site)
    }
}
