//! The transfer manager of one site.
ghost use Rattle.std.specs.Prelude.{◌≡◌, ℕ, ◌<◌, ◌≤◌, true, false, List, length, IfSome};
ghost use Rattle.rights_types.specs.Entries.{EntryValue};
ghost use Rattle.rights_types.specs.Messages.{AskValue, IsAsk};

use crate::answer::AskAnswer;
use crate::peer_asks::PeerAsks;
use crate::plan::{ask_each, eligible_rights, end_closed, need};
use crate::site_set::SiteSet;
use request_queue::RequestQueue;
use rights_book::Book;
use rights_types::{Amount, Ask, AskNumber, MAX_SITES, MIN_SITES, SiteId};
use std::alloc::Allocator;
use std::marker::Model;

/// The asks of one site: those of its own that are outstanding, and those of others that were answered. It writes no
/// entry, sends no line, and allocates nothing.
#[derive(Drop)]
pub struct Manager {
    me: SiteId,
    sites: usize,
    // One slot for each site that a system can have; those above the last site stay unused.
    peers: [PeerAsks; 16],
}

impl Model for Manager {
    ghost use Rattle.std.specs.Prelude.{◌≤◌, take};
    ghost use Rattle.rights_types.specs.declared.limits.TheConstants.{MAX_SITES};
    ghost use Rattle.transfer_manager.specs.Managers.{ManagerValue, IsManager};

    ghost Value = { ManagerValue };

    ghost view = { λ m. record { me = m.me; peers = take m.sites m.peers } };

    ghost invariant = { λ m. IsManager (record { me = m.me; peers = take m.sites m.peers }) × (m.sites ≤ MAX_SITES) };
}

impl Manager {
    ghost use Rattle.transfer_manager.specs.SiteSets.{has_site};
    ghost use Rattle.rights_book.specs.Books.{sites as book_sites, IsBook};
    ghost use Rattle.rights_book.specs.StandsFor.{StandsFor};
    ghost use Rattle.request_queue.specs.Queues.{total_of};
    ghost use Rattle.transfer_manager.specs.Managers.{sites, asks, SameSystem, new_manager, outstanding_ask, ended};
    ghost use Rattle.transfer_manager.specs.Managers.{asked_again, IsNextAsk};
    ghost use Rattle.transfer_manager.specs.Plans.{of_book, of_logs, beside, Plans};
    ghost use Rattle.transfer_manager.specs.AskAnswers.{answer_to, with_answer, noted, IfNew, IsWithin, IsAnswered};

    /// The manager of site `me` in a system of `sites` sites, 2 to 16, before any ask.
    pub fn new(me: SiteId, sites: u64) -> Manager
        requires sites { (MIN_SITES ≤ sites) × (sites ≤ MAX_SITES) }
        requires me { me ≤ sites }
        ensures made { result ≡ new_manager me sites }
        ensures system { (result.me ≡ me) × (length result.peers ≡ sites) }
    {
        // For the proof: a site's number is at least 1.
        let _ = me.number();
        Manager {
            me,
            sites: sites as usize,
            peers: [PeerAsks::new(); 16],
        }
    }

    /// Ends the asks to peers that are known to have closed. Then, if the waiting requests lack rights, asks peers for
    /// them: peers that are known to have more come first, and each is asked once, for no more than it is known to
    /// have. Returns how many were asked.
    pub fn plan<A: Allocator, B: Allocator>(
        &mut self,
        book: &Book<A>,
        queue: &RequestQueue<B>,
    ) -> u64
        ensures plans { Plans self.old (of_book book.now) (total_of queue.now.waiting) result self.new }
        ensures plans_by_logs { (log : List EntryValue) (applied : ℕ → List EntryValue) → StandsFor log applied book.now
            → book_sites book.now ≡ sites self.old
            → Plans self.old (of_logs (sites self.old) book.now.me log applied)
            (total_of queue.now.waiting) result self.new }
        ensures answered { (past : AskValue) → IsAnswered self.old past → IsAnswered self.new past }
        ensures range { result ≤ MAX_SITES }
    {
        self.plan_beside(book, queue, &SiteSet::new())
    }

    /// The same beside peers of which nothing is heard: a silent peer is not asked anew, and what it was asked for is
    /// not expected of it, so that the others are asked. The ask to it stays outstanding, with its number.
    pub fn plan_beside<A: Allocator, B: Allocator>(
        &mut self,
        book: &Book<A>,
        queue: &RequestQueue<B>,
        silent: &SiteSet,
    ) -> u64
        ensures plans { Plans self.old (beside (has_site silent.now) (of_book book.now))
            (total_of queue.now.waiting) result self.new }
        ensures plans_by_logs { (log : List EntryValue) (applied : ℕ → List EntryValue) → StandsFor log applied book.now
            → book_sites book.now ≡ sites self.old
            → Plans self.old (beside (has_site silent.now) (of_logs (sites self.old) book.now.me log applied))
            (total_of queue.now.waiting) result self.new }
        ensures answered { (past : AskValue) → IsAnswered self.old past → IsAnswered self.new past }
        ensures range { result ≤ MAX_SITES }
        ensures valid { IsBook book.now }
    {
        let peers = &mut self.peers[..self.sites];
        end_closed(peers, book);
        let need = need(peers, book, queue, silent);
        let rights = eligible_rights(self.me, peers, book, silent);
        let sites = peers.len();
        ask_each(peers, &rights[..sites], need)
    }

    /// Makes an ask of this site again, which is outstanding from then on. `false` if it is not the next one to a peer:
    /// then nothing changes.
    pub fn ask_again(&mut self, ask: &Ask) -> bool
        ensures next { result ≡ true → IsNextAsk self.old ask.now }
        ensures yes { result ≡ true → self.new ≡ asked_again self.old ask.now }
        ensures other { result ≡ false → ¬ IsNextAsk self.old ask.now }
        ensures no { result ≡ false → self.new ≡ self.old }
        ensures same { SameSystem self.old self.new }
        ensures answered { (past : AskValue) → IsAnswered self.old past → IsAnswered self.new past }
    {
        if !self.is_next(ask) {
            return false;
        }
        self.make_again(ask);
        true
    }

    /// The outstanding ask to that peer, if there is one.
    pub fn outstanding(&self, peer: SiteId) -> Option<Ask>
        ensures value { result ≡ outstanding_ask self.now peer }
        ensures valid { IfSome result IsAsk }
    {
        let asks = self.asks(peer);
        let amount = asks.outstanding?;
        Some(Ask::known(self.me, peer, AskNumber::known(asks.last_ask), amount))
    }

    /// The answer to an ask of a peer, given how many rights are available. Records nothing.
    pub fn on_ask(&self, ask: &Ask, available: u64) -> AskAnswer
        ensures value { result ≡ answer_to self.now ask.now available }
        ensures new { IfNew result ((asks self.now ask.now.asker).last_answered < ask.now.ask) }
        ensures within { IsWithin result ask.now available }
    {
        let asks = self.asks(ask.asker());
        let number = ask.ask().value();
        if number < asks.last_answered {
            return AskAnswer::OldAsk;
        }
        if number == asks.last_answered {
            return if asks.granted {
                AskAnswer::Repeated
            } else {
                AskAnswer::RepeatedDeny
            };
        }
        match Amount::new(available.min(ask.amount().value())) {
            Ok(amount) => AskAnswer::Grant(amount),
            Err(_) => AskAnswer::Deny,
        }
    }

    /// Records the answer that `on_ask` gave to this ask. A repeated answer was recorded before, and changes nothing.
    pub fn note_answer(&mut self, ask: &Ask, answer: AskAnswer)
        requires site { ask.now.asker ≤ sites self.old }
        requires new { IfNew answer ((asks self.old ask.now.asker).last_answered < ask.now.ask) }
        ensures noted { self.new ≡ noted self.old ask.now answer }
        ensures same { SameSystem self.old self.new }
        ensures once { IfNew answer (IsAnswered self.new ask.now) }
        ensures answered { (past : AskValue) → IsAnswered self.old past → IsAnswered self.new past }
    {
        match answer {
            AskAnswer::Grant(_) => self.note(ask, true),
            AskAnswer::Deny => self.note(ask, false),
            _ => {}
        }
    }

    /// A grant of that peer for this ask was applied. The ask ends if it is the outstanding one.
    pub fn on_grant(&mut self, peer: SiteId, ask: AskNumber)
        requires { peer ≤ sites self.old }
        ensures ended { self.new ≡ ended self.old peer ask }
        ensures same { SameSystem self.old self.new }
        ensures answered { (past : AskValue) → IsAnswered self.old past → IsAnswered self.new past }
    {
        self.end(peer, ask);
    }

    /// That peer denied the ask of this number. The ask ends if it is the outstanding one.
    pub fn on_deny(&mut self, peer: SiteId, ask: AskNumber)
        requires { peer ≤ sites self.old }
        ensures ended { self.new ≡ ended self.old peer ask }
        ensures same { SameSystem self.old self.new }
        ensures answered { (past : AskValue) → IsAnswered self.old past → IsAnswered self.new past }
    {
        self.end(peer, ask);
    }

    // Whether it is the next ask of this site to a peer.
    fn is_next(&self, ask: &Ask) -> bool
        ensures next { result ≡ true → IsNextAsk self.now ask.now }
        ensures other { result ≡ false → ¬ IsNextAsk self.now ask.now }
    {
        let peer = ask.asked();
        if ask.asker() != self.me {
            return false;
        }
        if peer.index() >= self.peers[..self.sites].len() {
            return false;
        }
        ask.ask().value() == self.asks(peer).last_ask + 1
    }

    // Makes the next ask to a peer.
    fn make_again(&mut self, ask: &Ask)
        requires { IsNextAsk self.old ask.now }
        ensures made { self.new ≡ asked_again self.old ask.now }
        ensures same { SameSystem self.old self.new }
        ensures answered { (past : AskValue) → IsAnswered self.old past → IsAnswered self.new past }
    {
        // For the proof: the ranges of the ask's number and amount.
        let _ = (ask.ask().value(), ask.amount().value());
        let asks = &mut self.peers[ask.asked().index()];
        asks.ask(ask.amount());
    }

    // Records the first answer to this ask.
    fn note(&mut self, ask: &Ask, granted: bool)
        requires site { ask.now.asker ≤ sites self.old }
        requires new { (asks self.old ask.now.asker).last_answered < ask.now.ask }
        ensures noted { self.new ≡ with_answer self.old ask.now granted }
        ensures once { IsAnswered self.new ask.now }
        ensures answered { (past : AskValue) → IsAnswered self.old past → IsAnswered self.new past }
    {
        let asks = &mut self.peers[ask.asker().index()];
        asks.last_answered = ask.ask().value();
        asks.granted = granted;
    }

    // The ask of this number to that peer ends, if it is outstanding.
    fn end(&mut self, peer: SiteId, ask: AskNumber)
        requires { peer ≤ sites self.old }
        ensures ended { self.new ≡ ended self.old peer ask }
        ensures answered { (past : AskValue) → IsAnswered self.old past → IsAnswered self.new past }
    {
        let asked = &mut self.peers[peer.index()];
        asked.end(ask);
    }

    fn asks(&self, peer: SiteId) -> PeerAsks
        ensures { result ≡ asks self.now peer }
    {
        match self.peers[..self.sites].get(peer.index()) {
            Some(asks) => *asks,
            None => PeerAsks::new(),
        }
    }
}
