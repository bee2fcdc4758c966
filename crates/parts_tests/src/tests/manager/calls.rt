//! Managers, and asks that reach them: calls that are made only if they are permitted, and that return their results.
ghost use Rattle.std.specs.Prelude.{◌≡◌, ◌≤◌};
ghost use Rattle.transfer_manager.specs.Managers.{sites};

use request_queue::RequestQueue;
use rights_book::Book;
use rights_types::{Ask, AskNumber, Entry, Move, SiteId};
use std::alloc::Global;
use transfer_manager::{Manager, SiteSet};

/// A manager, and the book and queue by which it plans.
#[derive(Drop)]
pub(crate) struct Planner {
    me: u64,
    count: u64,
    manager: Manager,
    book: Book,
    queue: RequestQueue,
    ghost same: { sites manager ≡ count },
}

/// A step at a manager, or an observation of it. Peers are given by their numbers.
#[derive(Clone, Copy)]
pub(crate) enum Step {
    /// The next entry of that peer is applied, with this move repeated.
    Applies(u64, Move, usize),
    /// That peer is known to have this number of rights.
    Knows(u64, i128),
    /// A request for this number of rights waits until that deadline, with this ticket.
    Waits(u64, u64, u64),
    /// This number of peers is asked.
    Plans(u64),
    /// This number of peers is asked while that peer is silent.
    PlansBeside(u64, u64),
    /// The ask of this number and amount to that peer is outstanding.
    Asks(u64, u64, u64),
    /// No ask to that peer is outstanding.
    AsksNothing(u64),
    /// That peer grants the ask with this number.
    Granted(u64, u64),
    /// That peer denies the ask with this number.
    Denied(u64, u64),
}

// Applies the moves as the next entry of that site. `false` if that is not permitted.
fn apply(book: &mut Book, origin: SiteId, moves: Vec<Move>) -> bool {
    let me = book.me();
    if origin.number() > book.sites() || origin == me || book.closed(origin) {
        return false;
    }
    match Entry::new(origin, book.applied(origin), moves) {
        Ok(entry) => {
            book.apply(origin, &entry);
            true
        }
        Err(_) => false,
    }
}

fn is_ask(ask: &Ask, asker: u64, asked: u64, number: u64, amount: u64) -> bool {
    ask.asker().number() == asker
        && ask.asked().number() == asked
        && ask.ask().value() == number
        && ask.amount().value() == amount
}

impl Planner {
    /// The manager of that site in a system of this many sites, with a book and a queue.
    pub(crate) fn new(alloc: Global, me: u64, count: u64) -> Option<Planner>
        requires count { (2 ≤ count) × (count ≤ 16) }
        requires me { (1 ≤ me) × (me ≤ count) }
    {
        let site = SiteId::known(me);
        let book = Book::new(alloc, site, count).ok()?;
        let queue = RequestQueue::new(alloc).ok()?;
        let manager = Manager::new(site, count);
        Some(Planner {
            me,
            count,
            manager,
            book,
            queue,
        })
    }

    pub(crate) fn applies(&mut self, alloc: Global, peer: u64, m: Move, times: usize) -> bool {
        let Ok(peer) = SiteId::new(peer) else {
            return false;
        };
        let mut moves = Vec::new(alloc);
        moves.resize(times, m).is_ok() && apply(&mut self.book, peer, moves)
    }

    fn knows(&self, peer: u64, rights: i128) -> bool {
        match SiteId::new(peer) {
            Ok(peer) => self.book.known(peer) == rights,
            Err(_) => false,
        }
    }

    pub(crate) fn waits(&mut self, amount: u64, deadline: u64, ticket: u64) -> bool {
        self.queue.put(amount, deadline) == Ok(ticket)
    }

    pub(crate) fn plans(&mut self, count: u64) -> bool {
        self.manager.plan(&self.book, &self.queue) == count
    }

    fn plans_beside(&mut self, peer: u64, count: u64) -> bool {
        let Ok(peer) = SiteId::new(peer) else {
            return false;
        };
        let mut silent = SiteSet::new();
        silent.insert(peer);
        silent.contains(peer) && self.manager.plan_beside(&self.book, &self.queue, &silent) == count
    }

    fn outstanding(&self, peer: u64) -> Option<Ask> {
        self.manager.outstanding(SiteId::new(peer).ok()?)
    }

    pub(crate) fn asks(&self, peer: u64, number: u64, amount: u64) -> bool {
        match self.outstanding(peer) {
            Some(ask) => is_ask(&ask, self.me, peer, number, amount),
            None => false,
        }
    }

    pub(crate) fn asks_nothing(&self, peer: u64) -> bool {
        peer <= self.count && self.outstanding(peer).is_none()
    }

    fn granted(&mut self, peer: u64, ask: u64) -> bool {
        let (Ok(peer), Ok(ask)) = (SiteId::new(peer), AskNumber::new(ask)) else {
            return false;
        };
        if peer.number() > self.count {
            return false;
        }
        self.manager.on_grant(peer, ask);
        true
    }

    fn denied(&mut self, peer: u64, ask: u64) -> bool {
        let (Ok(peer), Ok(ask)) = (SiteId::new(peer), AskNumber::new(ask)) else {
            return false;
        };
        if peer.number() > self.count {
            return false;
        }
        self.manager.on_deny(peer, ask);
        true
    }

    // Whether the step has the stated result.
    fn goes(&mut self, alloc: Global, step: Step) -> bool {
        match step {
            Step::Applies(peer, m, times) => self.applies(alloc, peer, m, times),
            Step::Knows(peer, rights) => self.knows(peer, rights),
            Step::Waits(amount, deadline, ticket) => self.waits(amount, deadline, ticket),
            Step::Plans(count) => self.plans(count),
            Step::PlansBeside(peer, count) => self.plans_beside(peer, count),
            Step::Asks(peer, number, amount) => self.asks(peer, number, amount),
            Step::AsksNothing(peer) => self.asks_nothing(peer),
            Step::Granted(peer, ask) => self.granted(peer, ask),
            Step::Denied(peer, ask) => self.denied(peer, ask),
        }
    }
}

/// How many steps have the stated results, before the first that does not, at that site in a system of this many.
pub(crate) fn steps_gone(alloc: Global, me: u64, count: u64, steps: &[Step]) -> usize
    requires count { (2 ≤ count) × (count ≤ 16) }
    requires me { (1 ≤ me) × (me ≤ count) }
{
    let Some(mut planner) = Planner::new(alloc, me, count) else {
        return 0;
    };
    for (place, step) in steps.iter().enumerate() {
        if !planner.goes(alloc, *step) {
            return place;
        }
    }
    steps.len()
}
