//! Calls under the lock that change a desk: those of seats, which issue and spend, and all others.
ghost use Rattle.std.specs.Prelude.{◌≡◌, ℕ, ◌<◌, ◌≤◌, ◌∷◌, [], true, false, None, Some, IfOk, IfErr, IfSome, OnOk, OnErr};
ghost use Rattle.std.specs.Prelude.{IsOk, List, length};
ghost use Rattle.rights_types.specs.Chains.{end};
ghost use Rattle.rights_types.specs.declared.moves.Move.TheVariants.{Issue as Issues, Spend as Spends, Give as Gives};
ghost use Rattle.transfer_manager.specs.SiteSets.{has_site};
ghost use Rattle.rights_book.specs.Books.{sites};
ghost use Rattle.request_queue.specs.Queues.{front_of};
ghost use Rattle.request_queue.specs.declared.queue.TheConstants.{SLOTS};
ghost use Rattle.request_queue.specs.Calls.{TellsOutcome};
ghost use Rattle.request_queue.specs.declared.request.Status.TheVariants.{Waiting as Waits};
ghost use Rattle.transfer_manager.specs.Managers.{ended};
ghost use Rattle.site_core.specs.Faults.{can_spend, can_serve, issue_fault, give_fault, spend_fault, serve_fault};
ghost use Rattle.site_core.specs.Faults.{take_fault, expire_fault, close_fault, DeskRefuses};
ghost use Rattle.site_core.specs.Ledgers.{EntryKeeps, ClosingKeeps};
ghost use Rattle.site_core.specs.Calls.{DeskWrites, DeskSpends, SpendKeeps, DeskServes, ServeKeeps, DeskExpires};
ghost use Rattle.entry_codec.specs.Spelling.{LineOf};
ghost use Rattle.site_core.specs.Calls.{DeskPlans, DeskCloses, answer_of, is_ignored, denial_of, DeskAnswers};
ghost use Rattle.site_core.specs.Calls.{AnswerKeeps, DeskCancels, DeskPlansBeside};
ghost use Rattle.site_core.specs.declared.fault.DeskError.TheVariants.{OutOfMemory as NoMemory};
ghost use Rattle.rights_protocol.specs.Schedules.LocalChange.{Write, Retire, Other};
ghost use Rattle.apply_lanes.specs.Steps.{StepsBy, RecordsBy, spend_change, serve_change, answer_change};
ghost use Rattle.apply_lanes.specs.Recording.{with_written, with_spent, with_served, with_answered, with_planned};

use crate::kept::Kept;
use crate::names::DeskNames;
use crate::records::{Answered, Planned, asked_sites};
use crate::seat::Seat;
use request_queue::{SLOTS, Status};
use rights_types::{Ask, AskNumber, OutOfMemory, SiteId};
use site_core::{AskReply, DeskError, Spending};
use std::alloc::Allocator;
use transfer_manager::SiteSet;

impl<D: DeskNames, A: Allocator + Copy> Kept<D, A> {
    ghost use Rattle.apply_lanes.specs.Kepts.{raised, told_issued, told_spent, told_taken, told_served, spent_by};
    ghost use Rattle.apply_lanes.specs.Kepts.{without_amount, amount_of, IsFront};

    /// Creates rights, with one entry, whose number is returned.
    #[inline(always)]
    pub fn issue(&mut self, seat: &mut Seat<D>, amount: u64) -> Result<u64, DeskError>
        ensures refused { DeskRefuses (issue_fault self.old.desk amount) result }
        ensures ok { OnOk result (DeskWrites self.old.desk (Issues amount ∷ []) self.new.desk) }
        ensures keeps { OnOk result (EntryKeeps self.old.desk.ledger (Issues amount ∷ []) self.new.desk.ledger) }
        ensures step { OnOk result (StepsBy D.id self.old.desk (Write (Issues amount ∷ [])) self.new.desk) }
        ensures records { OnOk result (RecordsBy D.id self.old (Write (Issues amount ∷ [])) self.new) }
        ensures number { IfOk result (λ n. n ≡ end self.new.desk.ledger.log.entries) }
        ensures counters { OnOk result
            (self.new ≡ record self.old {
              desk = self.new.desk;
              issued = raised self.old.issued amount;
              records = with_written self.old.records self.new.desk;
            }) }
        ensures told { OnOk result (seat.new ≡ told_issued seat.old amount) }
        ensures err { OnErr result ((self.new ≡ self.old) × (seat.new ≡ seat.old)) }
    {
        let number = self.desk.issue(amount)?;
        // For the proof: the sum is in its range.
        let _ = self.desk.issued();
        self.issued.add(&mut seat.issued, amount);
        self.records.note(&self.desk);
        Ok(number)
    }

    /// Spends `amount` rights at once if no spend waits and that many are held; else the spend waits until its
    /// deadline. Errors: see `Desk::spend`.
    #[inline(always)]
    pub fn spend(
        &mut self,
        seat: &mut Seat<D>,
        amount: u64,
        deadline: u64,
    ) -> Result<Spending, DeskError>
        ensures refused { DeskRefuses (spend_fault self.old.desk amount) result }
        ensures ok { OnOk result (IfOk result
            (λ spending. DeskSpends self.old.desk amount deadline spending self.new.desk)) }
        ensures keeps { IfOk result (λ spending. SpendKeeps self.old.desk amount spending self.new.desk) }
        ensures step { IfOk result
            (λ spending. StepsBy D.id self.old.desk (spend_change amount spending) self.new.desk) }
        ensures records { IfOk result (λ spending. RecordsBy D.id self.old (spend_change amount spending) self.new) }
        ensures counters { IfOk result (λ spending. self.new
            ≡ record self.old {
              desk = self.new.desk;
              spent = raised self.old.spent (spent_by amount spending);
              records = with_spent self.old.records spending self.new.desk;
            }) }
        ensures told { IfOk result (λ spending. seat.new ≡ told_spent seat.old amount spending) }
        ensures err { OnErr result ((self.new ≡ self.old) × (seat.new ≡ seat.old)) }
        ensures memory { IfErr result (λ fault. fault ≡ NoMemory → can_spend self.old.desk amount ≡ true) }
    {
        let spending = self.desk.spend(amount, deadline)?;
        if let Spending::Spent(_) = spending {
            // For the proof: the sum is in its range.
            let _ = self.desk.spent();
            self.spent.add(&mut seat.used, amount);
            seat.spent += amount;
            self.records.note(&self.desk);
        }
        Ok(spending)
    }

    /// Spends this number of rights now, or not at all, with one entry, whose number is returned. Errors: see `Desk::take`.
    pub fn take(&mut self, seat: &mut Seat<D>, rights: u64) -> Result<u64, DeskError>
        ensures refused { DeskRefuses (take_fault self.old.desk rights) result }
        ensures ok { OnOk result (DeskWrites self.old.desk (Spends rights ∷ []) self.new.desk) }
        ensures keeps { OnOk result (EntryKeeps self.old.desk.ledger (Spends rights ∷ []) self.new.desk.ledger) }
        ensures step { OnOk result (StepsBy D.id self.old.desk (Write (Spends rights ∷ [])) self.new.desk) }
        ensures records { OnOk result (RecordsBy D.id self.old (Write (Spends rights ∷ [])) self.new) }
        ensures number { IfOk result (λ n. n ≡ end self.new.desk.ledger.log.entries) }
        ensures counters { OnOk result
            (self.new ≡ record self.old {
              desk = self.new.desk;
              spent = raised self.old.spent rights;
              records = with_written self.old.records self.new.desk;
            }) }
        ensures told { OnOk result (seat.new ≡ told_taken seat.old rights) }
        ensures err { OnErr result ((self.new ≡ self.old) × (seat.new ≡ seat.old)) }
    {
        let number = self.desk.take(rights)?;
        // For the proof: the sum is in its range.
        let _ = self.desk.spent();
        self.spent.add(&mut seat.used, rights);
        seat.spent += rights;
        self.records.note(&self.desk);
        Ok(number)
    }

    /// Serves the spend at the front of the queue, if that many rights are held, and returns its ticket, the number
    /// of the entry that spends it, and its amount in rights. `None` if none waits or too few rights are held.
    pub fn serve(&mut self, seat: &mut Seat<D>) -> Result<Option<(u64, u64, u64)>, DeskError>
        ensures refused { DeskRefuses (serve_fault self.old.desk) result }
        ensures ok { IfOk result (λ served. DeskServes self.old.desk (without_amount served) self.new.desk) }
        ensures keeps { IfOk result (λ served. ServeKeeps self.old.desk (without_amount served) self.new.desk) }
        ensures step { IfOk result (λ served. StepsBy D.id self.old.desk (serve_change served) self.new.desk) }
        ensures records { IfOk result (λ served. RecordsBy D.id self.old (serve_change served) self.new) }
        ensures front { IfOk result (λ served. IfSome served (IsFront self.old.desk.queue.waiting)) }
        ensures fewer { IfOk result
            (λ served. IfSome served (λ _. length self.new.desk.queue.waiting < length self.old.desk.queue.waiting)) }
        ensures few { length self.old.desk.queue.waiting ≤ SLOTS }
        ensures counters { IfOk result (λ served. self.new
            ≡ record self.old {
              desk = self.new.desk;
              spent = raised self.old.spent (amount_of served);
              records = with_served self.old.records served self.new.desk;
            }) }
        ensures told { IfOk result (λ served. seat.new ≡ told_served seat.old (amount_of served)) }
        ensures err { OnErr result ((self.new ≡ self.old) × (seat.new ≡ seat.old)) }
        ensures memory { IfErr result (λ fault. fault ≡ NoMemory
            → can_serve self.old.desk (front_of self.old.desk.queue.waiting) ≡ true) }
    {
        let before = self.desk.spent();
        let Some((ticket, number)) = self.desk.serve()? else {
            return Ok(None);
        };
        let amount = self.desk.spent() - before;
        self.spent.add(&mut seat.used, amount);
        seat.served += amount;
        self.records.note(&self.desk);
        Ok(Some((ticket, number, amount)))
    }

    /// Gives rights to a peer that did not ask, with one entry, whose number is returned.
    pub fn give_back(&mut self, peer: SiteId, amount: u64) -> Result<u64, DeskError>
        ensures refused { DeskRefuses (give_fault self.old.desk peer amount) result }
        ensures ok { OnOk result (DeskWrites self.old.desk (Gives peer amount ∷ []) self.new.desk) }
        ensures keeps { OnOk result (EntryKeeps self.old.desk.ledger (Gives peer amount ∷ []) self.new.desk.ledger) }
        ensures step { OnOk result (StepsBy D.id self.old.desk (Write (Gives peer amount ∷ [])) self.new.desk) }
        ensures records { OnOk result (RecordsBy D.id self.old (Write (Gives peer amount ∷ [])) self.new) }
        ensures number { IfOk result (λ n. n ≡ end self.new.desk.ledger.log.entries) }
        ensures err { OnErr result (self.new ≡ self.old) }
        ensures rest { OnOk result (self.new
            ≡ record self.old { desk = self.new.desk; records = with_written self.old.records self.new.desk }) }
    {
        let number = self.desk.give_back(peer, amount)?;
        self.records.note(&self.desk);
        Ok(number)
    }

    /// Expires all waiting spends whose deadlines are less than this time, and returns how many there were.
    pub fn expire(&mut self, time: u64) -> Result<u64, DeskError>
        ensures refused { DeskRefuses (expire_fault self.old.desk time) result }
        ensures memory { IfErr result (λ fault. ¬ (fault ≡ NoMemory)) }
        ensures ok { IfOk result (λ count. DeskExpires self.old.desk time count self.new.desk) }
        ensures step { StepsBy D.id self.old.desk Other self.new.desk }
        ensures err { OnErr result (self.new ≡ self.old) }
        ensures rest { self.new ≡ record self.old { desk = self.new.desk } }
    {
        self.desk.expire(time)
    }

    /// The state of the spend with this ticket. Its outcome is reported once, which frees its slot.
    pub fn status(&mut self, ticket: u64) -> Status
        ensures outcome { TellsOutcome self.old.desk.queue ticket result self.new.desk.queue }
        ensures step { StepsBy D.id self.old.desk Other self.new.desk }
        ensures rest { self.new ≡ record self.old { desk = record self.old.desk { queue = self.new.desk.queue } } }
    {
        self.desk.status(ticket)
    }

    /// Ends the spend with this ticket, if it waits, as if its deadline had passed, and reports the outcome of the
    /// ticket, which is not `Waiting`. An outcome is reported once, which frees its slot.
    pub fn cancel(&mut self, ticket: u64) -> Status
        ensures cancels { DeskCancels self.old.desk ticket result self.new.desk }
        ensures decided { ¬ (result ≡ Waits) }
        ensures step { StepsBy D.id self.old.desk Other self.new.desk }
        ensures rest { self.new ≡ record self.old { desk = record self.old.desk { queue = self.new.desk.queue } } }
    {
        self.desk.cancel(ticket)
    }

    /// Ends asks to peers that are known to be closed, and asks peers for the rights that waiting spends lack.
    /// Returns the number of asks made.
    pub fn plan(&mut self) -> u64
        ensures plans { DeskPlans self.old.desk result self.new.desk }
        ensures step { StepsBy D.id self.old.desk Other self.new.desk }
        ensures rest { self.new ≡ record self.old {
          desk = self.new.desk;
          records = with_planned (λ j. false) self.old.records self.old.desk;
        } }
    {
        let before = asked_sites(&self.desk);
        let count = self.desk.plan();
        self.records.note(&Planned {
            desk: &self.desk,
            before,
        });
        count
    }

    /// The same beside silent peers: none of them is asked anew, and what they were asked for is not expected of them.
    pub fn plan_beside(&mut self, silent: &SiteSet) -> u64
        ensures plans { DeskPlansBeside (has_site silent.now) self.old.desk result self.new.desk }
        ensures step { StepsBy D.id self.old.desk Other self.new.desk }
        ensures rest { self.new ≡ record self.old {
          desk = self.new.desk;
          records = with_planned (has_site silent.now) self.old.records self.old.desk;
        } }
    {
        let before = asked_sites(&self.desk);
        let count = self.desk.plan_beside(silent);
        self.records.note(&Planned {
            desk: &self.desk,
            before,
        });
        count
    }

    /// Answers the ask of a peer. A grant is written at once.
    pub fn on_ask(&mut self, ask: &Ask) -> Result<AskReply<A>, OutOfMemory>
        requires site { ask.now.asker ≤ sites self.old.desk.ledger.book }
        requires mine { ask.now.asked ≡ self.old.desk.ledger.log.site }
        ensures answer { IfOk result (λ reply. reply.answer ≡ answer_of self.old.desk ask.now) }
        ensures ok { IfOk result (λ reply. DeskAnswers self.old.desk ask.now reply.answer reply.number self.new.desk) }
        ensures keeps { IfOk result (λ reply. AnswerKeeps self.old.desk ask.now reply.answer self.new.desk) }
        ensures step { IfOk result
            (λ reply. StepsBy D.id self.old.desk (answer_change ask.now reply.answer) self.new.desk) }
        ensures records { IfOk result
            (λ reply. RecordsBy D.id self.old (answer_change ask.now reply.answer) self.new) }
        ensures line { IfOk result (λ reply. LineOf (λ (l : List ℕ). l) (denial_of ask.now reply.answer) reply.line) }
        ensures err { OnErr result (self.new ≡ self.old) }
        ensures rest { IfOk result (λ reply. self.new ≡ record self.old {
          desk = self.new.desk;
          records = with_answered self.old.records reply.answer self.new.desk;
        }) }
        ensures memory { is_ignored (answer_of self.old.desk ask.now) ≡ true → IsOk result }
    {
        let reply = self.desk.on_ask(ask)?;
        self.records.note(&Answered {
            desk: &self.desk,
            answer: reply.answer,
        });
        Ok(reply)
    }

    /// That peer denied the ask with this number. Only the outstanding ask can be ended by it.
    pub fn on_deny(&mut self, peer: SiteId, ask: AskNumber)
        requires site { peer ≤ sites self.old.desk.ledger.book }
        ensures ends { self.new ≡ record self.old {
          desk =
              record self.old.desk { manager = ended self.old.desk.manager peer ask };
        } }
        ensures step { StepsBy D.id self.old.desk Other self.new.desk }
    {
        self.desk.on_deny(peer, ask);
    }

    /// Writes the closing entry, and returns its number. All that is held goes to the heir, if one is named. From
    /// then on appliers drop what they take.
    pub fn close(&mut self, heir: Option<SiteId>) -> Result<u64, DeskError>
        ensures refused { DeskRefuses (close_fault self.old.desk heir) result }
        ensures ok { OnOk result (DeskCloses self.old.desk heir self.new.desk) }
        ensures keeps { OnOk result (ClosingKeeps self.old.desk.ledger heir self.new.desk.ledger) }
        ensures step { OnOk result (StepsBy D.id self.old.desk (Retire heir) self.new.desk) }
        ensures records { OnOk result (RecordsBy D.id self.old (Retire heir) self.new) }
        ensures number { IfOk result (λ n. n ≡ end self.new.desk.ledger.log.entries) }
        ensures err { OnErr result (self.new ≡ self.old) }
        ensures rest { OnOk result (self.new
            ≡ record self.old { desk = self.new.desk; records = with_written self.old.records self.new.desk }) }
    {
        let number = self.desk.close(heir)?;
        self.records.note(&self.desk);
        Ok(number)
    }
}
