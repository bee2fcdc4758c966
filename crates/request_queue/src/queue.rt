//! The queue of spends that wait for rights.
ghost use Rattle.std.specs.Prelude.{◌≡◌, ℕ, ◌+◌, ◌*◌, ◌<◌, ◌≤◌, ◌==◌, ◌↔◌, true, false, Some, length, IfOk, IfSome, IsSome};
ghost use Rattle.std.specs.Prelude.{position, Ok};
ghost use Rattle.request_queue.specs.Queues.{no_requests, front_of, total_of, has_ticket, outcome_of, is_late, IsQueue};
ghost use Rattle.request_queue.specs.Queues.{QueueValue, without_tickets};
ghost use Rattle.request_queue.specs.declared.request.Request.{Request};
ghost use Rattle.request_queue.specs.declared.request.Outcome.{Outcome};
ghost use Rattle.request_queue.specs.Calls.{Puts, Serves, Expires, Cancels, TellsOutcome, Finishes};

use crate::fault::QueueError;
use crate::request::{Outcome, Request, Status};
use rights_types::{Amount, MAX_AMOUNT, OutOfMemory};
use std::alloc::{Allocator, Global};
use std::marker::Model;

/// The slots of a queue. A waiting request takes one, and so does an outcome until it is read.
pub const SLOTS: usize = 32;

/// The greatest ticket; the first is 1.
pub const LAST_TICKET: u64 = 1_000_000_000_000_000_000;

/// The waiting requests, the oldest first, and the outcomes that nobody has read yet. `new` allocates all of its
/// memory.
#[derive(Drop)]
pub struct RequestQueue<A: Allocator = Global> {
    waiting: Vec<Request, A>,
    outcomes: Vec<(u64, Outcome), A>,
    next: u64,
}

impl<A: Allocator> Model for RequestQueue<A> {
    ghost use Rattle.std.specs.Prelude.{◌≤◌};
    ghost use Rattle.std.specs.Vec.{vec_capacity};
    ghost use Rattle.request_queue.specs.Queues.{QueueValue, IsQueue};
    ghost use Rattle.request_queue.specs.declared.queue.TheConstants.{SLOTS};

    ghost Value = { QueueValue };

    ghost view = { λ q. record { waiting = q.waiting.items; outcomes = q.outcomes.items; next = q.next } };

    ghost invariant = { λ q. IsQueue (record { waiting = q.waiting.items; outcomes = q.outcomes.items; next = q.next })
        × (SLOTS ≤ vec_capacity q.waiting) × (SLOTS ≤ vec_capacity q.outcomes) };
}

impl<A: Allocator + Copy> RequestQueue<A> {
    /// An empty queue, whose first ticket will be 1. `OutOfMemory` if memory for its 32 slots is refused.
    pub fn new(alloc: A) -> Result<RequestQueue<A>, OutOfMemory>
        ensures { IfOk result (λ queue. queue ≡ no_requests) }
    {
        Ok(RequestQueue {
            waiting: Vec::with_capacity(alloc, SLOTS)?,
            outcomes: Vec::with_capacity(alloc, SLOTS)?,
            next: 1,
        })
    }
}

impl<A: Allocator> RequestQueue<A> {
    /// Appends a request for this amount, 1 to 10^9, and returns its ticket. Errors, in this order: `BadAmount`,
    /// `QueueFull`. A deadline that has already passed is accepted.
    pub fn put(&mut self, amount: u64, deadline: u64) -> Result<u64, QueueError>
        ensures { Puts self.old amount deadline result self.new }
    {
        let Ok(amount) = Amount::new(amount) else {
            return Err(QueueError::BadAmount);
        };
        if self.waiting.len() + self.outcomes.len() >= SLOTS || self.next > LAST_TICKET {
            return Err(QueueError::QueueFull);
        }
        let ticket = self.next;
        self.waiting
            .push(Request {
                ticket,
                amount,
                deadline,
            })
            .unwrap();
        self.next += 1;
        Ok(ticket)
    }

    /// Gives out no ticket up to `last` from now on, as after a restart: each of them may have been given out before. No
    /// ticket above `LAST_TICKET` is given out.
    pub fn skip_tickets(&mut self, last: u64)
        ensures skips { self.new ≡ without_tickets self.old last }
        ensures above { (amount deadline ticket : ℕ) (later : QueueValue)
            → Puts self.new amount deadline (Ok ticket) later → last < ticket }
    {
        self.next = self.next.max(last.min(LAST_TICKET) + 1);
    }

    /// Ticket, amount and deadline of the next request to be served.
    pub fn front(&self) -> Option<(u64, Amount, u64)>
        ensures value { result ≡ front_of self.now.waiting }
        ensures some { IsSome result ↔ (0 < length self.now.waiting) }
        ensures valid { IsQueue self.now }
    {
        let request = self.waiting.first()?;
        Some((request.ticket, request.amount, request.deadline))
    }

    /// Ends the request at the front: the log entry of this number spent its amount.
    pub fn serve_front(&mut self, number: u64)
        requires { 0 < length self.old.waiting }
        ensures { Serves self.old number self.new }
    {
        self.finish(0, Outcome::Spent(number));
    }

    /// Ends the first request whose deadline is less than `now`, and returns its ticket; None if there is no such
    /// request.
    pub fn expire_one(&mut self, now: u64) -> Option<u64>
        ensures expires { Expires self.old now result self.new }
        ensures fewer { IfSome result (λ _. length self.new.waiting + 1 ≡ length self.old.waiting) }
    {
        let index = first_late(&self.waiting, now)?;
        Some(self.finish(index, Outcome::Expired))
    }

    /// Ends the waiting request with this ticket as if its deadline had passed: all others keep their places, and its
    /// outcome is then unread. Returns whether there was such a request; if not, nothing changes.
    pub fn cancel(&mut self, ticket: u64) -> bool
        ensures cancels { Cancels self.old ticket result self.new }
        ensures unread { result ≡ true → outcome_of self.new ticket ≡ Some Outcome.Expired }
        ensures gone { has_ticket ticket self.new.waiting ≡ false }
    {
        let Some(index) = index_among(&self.waiting, ticket) else {
            return false;
        };
        self.finish(index, Outcome::Expired);
        true
    }

    /// The waiting requests, the oldest first.
    pub fn requests(&self) -> &[Request]
        ensures { result.now ≡ self.now.waiting }
    {
        &self.waiting
    }

    /// The sum of the amounts of all waiting requests.
    pub fn total(&self) -> u64
        ensures value { result ≡ total_of self.now.waiting }
        ensures range { result ≤ SLOTS * MAX_AMOUNT }
        ensures valid { IsQueue self.now }
    {
        total_amount(&self.waiting)
    }

    /// How many requests wait, at most 32.
    pub fn waiting(&self) -> usize
        ensures value { result ≡ length self.now.waiting }
        ensures valid { IsQueue self.now }
    {
        self.waiting.len()
    }

    /// How many outcomes have not been read yet. With the waiting requests there are at most 32.
    pub fn unread(&self) -> usize
        ensures value { result ≡ length self.now.outcomes }
        ensures valid { IsQueue self.now }
    {
        self.outcomes.len()
    }

    /// The state of the request with this ticket. A final outcome is reported once: reading it frees its slot, and
    /// from then on the ticket is unknown.
    pub fn status(&mut self, ticket: u64) -> Status
        ensures { TellsOutcome self.old ticket result self.new }
    {
        if let Some(index) = index_of(&self.outcomes, ticket) {
            let (_, outcome) = self.outcomes.remove(index);
            return match outcome {
                Outcome::Spent(number) => Status::Spent(number),
                Outcome::Expired => Status::Expired,
            };
        }
        if has_ticket(&self.waiting, ticket) {
            Status::Waiting
        } else {
            Status::Unknown
        }
    }

    // Ends the request at this index with this outcome, which takes over its slot. Returns its ticket.
    fn finish(&mut self, index: usize, outcome: Outcome) -> u64
        requires { index < length self.old.waiting }
        ensures { Finishes self.old index outcome result self.new }
    {
        let request = self.waiting.remove(index);
        self.outcomes.push((request.ticket, outcome)).unwrap();
        request.ticket
    }
}

// The index of the first request whose deadline is less than `now`.
fn first_late(requests: &[Request], now: u64) -> Option<usize>
    ensures { result ≡ position (is_late now) requests.now }
{
    requests.iter().position(|request| request.deadline < now)
}

// The index of the request with this ticket.
fn index_among(requests: &[Request], ticket: u64) -> Option<usize>
    ensures { result ≡ position (λ (r : Request). r.ticket == ticket) requests.now }
{
    requests.iter().position(|request| request.ticket == ticket)
}

fn total_amount(requests: &[Request]) -> u64
    requires { length requests.now ≤ SLOTS }
    ensures { result ≡ total_of requests.now }
{
    requests.iter().map(|request| request.amount.value()).sum()
}

fn has_ticket(requests: &[Request], ticket: u64) -> bool
    ensures { result ≡ has_ticket ticket requests.now }
{
    requests.iter().any(|request| request.ticket == ticket)
}

fn index_of(outcomes: &[(u64, Outcome)], ticket: u64) -> Option<usize>
    ensures { result ≡ position (λ (e : ℕ × Outcome). e.0 == ticket) outcomes.now }
{
    outcomes.iter().position(|(key, _)| *key == ticket)
}
