//! Spends: those that are served at once, and those that wait.
ghost use Rattle.std.specs.Prelude.{◌≡◌, ◌<◌, ◌≤◌, true, ◌∷◌, [], IfOk, IfErr, IfSome, OnOk, OnErr, length};
ghost use Rattle.rights_types.specs.Chains.{end};
ghost use Rattle.rights_types.specs.declared.moves.Move.TheVariants.{Spend as Spends};
ghost use Rattle.request_queue.specs.Queues.{front_of, without_tickets};
ghost use Rattle.request_queue.specs.declared.request.Status.TheVariants.{Waiting as Waits};
ghost use Rattle.request_queue.specs.declared.queue.TheConstants.{SLOTS};
ghost use Rattle.request_queue.specs.Calls.{TellsOutcome};
ghost use Rattle.site_core.specs.Ledgers.{EntryKeeps};
ghost use Rattle.site_core.specs.Faults.{can_spend, can_serve, spare, spend_fault, take_fault, serve_fault};
ghost use Rattle.site_core.specs.Faults.{expire_fault, DeskRefuses};
ghost use Rattle.site_core.specs.Calls.{DeskWrites, DeskSpends, SpendKeeps, DeskServes, ServeKeeps, DeskExpires};
ghost use Rattle.site_core.specs.Calls.{ExpiresLate, DeskCancels};
ghost use Rattle.site_core.specs.declared.fault.DeskError.TheVariants.{OutOfMemory as NoMemory};

use crate::desk::Desk;
use crate::fault::DeskError;
use request_queue::{RequestQueue, SLOTS, Status};
use rights_types::{Amount, Move};
use std::alloc::Allocator;

/// The result of a spend.
#[derive(Clone, Copy, Debug, PartialEq, Eq)]
pub enum Spending {
    /// The entry of this number spends the rights.
    Spent(u64),
    /// It waits, under this ticket.
    Queued(u64),
}

impl<A: Allocator + Copy> Desk<A> {
    /// Spends this many rights at once if no spend waits and enough are held; else the spend waits after the others
    /// until its deadline, which may have passed already. Only an entry allocates. Errors: `Closed`, `BadAmount`; then
    /// `LogFull` if it could be served at once, else `QueueFull`.
    #[inline(always)]
    pub fn spend(&mut self, amount: u64, deadline: u64) -> Result<Spending, DeskError>
        ensures refused { DeskRefuses (spend_fault self.old amount) result }
        ensures ok { OnOk result (IfOk result (λ spending. DeskSpends self.old amount deadline spending self.new)) }
        ensures keeps { IfOk result (λ spending. SpendKeeps self.old amount spending self.new) }
        ensures err { OnErr result (self.new ≡ self.old) }
        ensures memory { IfErr result (λ fault. fault ≡ NoMemory → can_spend self.old amount ≡ true) }
    {
        if self.ledger.log().closed() {
            return Err(DeskError::Closed);
        }
        let Ok(rights) = Amount::new(amount) else {
            return Err(DeskError::BadAmount);
        };
        if self.queue.waiting() == 0 && self.ledger.book().held() >= amount {
            if !self.has_room(1) {
                return Err(DeskError::LogFull);
            }
            let number = self.ledger.write(&[Move::Spend(rights)], None)?;
            return Ok(Spending::Spent(number));
        }
        match self.queue.put(amount, deadline) {
            Ok(ticket) => Ok(Spending::Queued(ticket)),
            Err(_) => Err(DeskError::QueueFull),
        }
    }

    /// Spends this many rights now, or not at all: nothing is queued, and nobody is asked. What the waiting spends need
    /// is left to them. Returns the number of the entry. Errors, in this order: `Closed`, `BadAmount`, `LogFull`,
    /// `Short`.
    pub fn take(&mut self, amount: u64) -> Result<u64, DeskError>
        ensures refused { DeskRefuses (take_fault self.old amount) result }
        ensures ok { OnOk result (DeskWrites self.old (Spends amount ∷ []) self.new) }
        ensures keeps { OnOk result (EntryKeeps self.old.ledger (Spends amount ∷ []) self.new.ledger) }
        ensures number { IfOk result (λ n. n ≡ end self.new.ledger.log.entries) }
        ensures err { OnErr result (self.new ≡ self.old) }
    {
        if self.ledger.log().closed() {
            return Err(DeskError::Closed);
        }
        let Ok(rights) = Amount::new(amount) else {
            return Err(DeskError::BadAmount);
        };
        if !self.has_room(1) {
            return Err(DeskError::LogFull);
        }
        if self.spare() < amount {
            return Err(DeskError::Short);
        }
        Ok(self.ledger.write(&[Move::Spend(rights)], None)?)
    }

    /// Serves the spend at the front of the queue, if enough rights are held, and returns its ticket and the number of
    /// the entry that spends them. Only that entry allocates.
    pub fn serve(&mut self) -> Result<Option<(u64, u64)>, DeskError>
        ensures refused { DeskRefuses (serve_fault self.old) result }
        ensures ok { IfOk result (λ served. DeskServes self.old served self.new) }
        ensures keeps { IfOk result (λ served. ServeKeeps self.old served self.new) }
        ensures fewer { IfOk result
            (λ served. IfSome served (λ _. length self.new.queue.waiting < length self.old.queue.waiting)) }
        ensures few { length self.old.queue.waiting ≤ SLOTS }
        ensures err { OnErr result (self.new ≡ self.old) }
        ensures memory { IfErr result (λ fault. fault ≡ NoMemory
            → can_serve self.old (front_of self.old.queue.waiting) ≡ true) }
    {
        let Some((ticket, amount, _deadline)) = self.queue.front() else {
            return Ok(None);
        };
        if self.ledger.book().held() < amount.value() {
            return Ok(None);
        }
        if !self.has_room(1) {
            return Err(DeskError::LogFull);
        }
        let number = self.ledger.write(&[Move::Spend(amount)], None)?;
        self.queue.serve_front(number);
        Ok(Some((ticket, number)))
    }

    /// Ends all waiting spends whose deadlines are less than this time, and returns how many there were. A closed site
    /// has none. `TimeWentBack` if an earlier expiry had a later time.
    pub fn expire(&mut self, time: u64) -> Result<u64, DeskError>
        ensures refused { DeskRefuses (expire_fault self.old time) result }
        ensures memory { IfErr result (λ fault. ¬ (fault ≡ NoMemory)) }
        ensures ok { IfOk result (λ count. DeskExpires self.old time count self.new) }
        ensures err { OnErr result (self.new ≡ self.old) }
    {
        if time < self.time {
            return Err(DeskError::TimeWentBack);
        }
        let count = expire_late(&mut self.queue, time);
        self.time = time;
        Ok(count)
    }

    /// The state of the spend with this ticket. A final outcome is reported once, which frees its slot.
    pub fn status(&mut self, ticket: u64) -> Status
        ensures outcome { TellsOutcome self.old.queue ticket result self.new.queue }
        ensures rest { self.new ≡ record self.old { queue = self.new.queue } }
    {
        self.queue.status(ticket)
    }

    /// Ends the spend with this ticket, if it waits, as if its deadline had passed, and reports the outcome of the
    /// ticket: so it never says `Waiting`. A final outcome is reported once, which frees its slot.
    pub fn cancel(&mut self, ticket: u64) -> Status
        ensures cancels { DeskCancels self.old ticket result self.new }
        ensures decided { ¬ (result ≡ Waits) }
    {
        self.queue.cancel(ticket);
        self.queue.status(ticket)
    }

    /// Gives out no ticket up to `last` from now on, as after a restart: each of them may have been given out before.
    pub fn skip_tickets(&mut self, last: u64)
        ensures { self.new ≡ record self.old { queue = without_tickets self.old.queue last } }
    {
        self.queue.skip_tickets(last);
    }

    // What is held beyond the waiting spends.
    pub(super) fn spare(&self) -> u64
        ensures { result ≡ spare self.now }
    {
        self.ledger.book().held().saturating_sub(self.queue.total())
    }
}

fn expire_late<A: Allocator>(queue: &mut RequestQueue<A>, time: u64) -> u64
    ensures { ExpiresLate queue.old time result queue.new }
{
    // For the proof: the limit on waiting spends.
    let _ = queue.waiting();
    let mut count = 0;
    while let Some(_ticket) = queue.expire_one(time) {
        count += 1;
    }
    count
}
