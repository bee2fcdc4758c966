//! Entries of other sites, what is reclaimed by them, and closing.
ghost use Rattle.std.specs.Prelude.{◌≡◌, ◌≢◌, ◌≤◌, false, None, IfOk, IfSome, IsOk, OnOk, OnErr};
ghost use Rattle.rights_types.specs.Chains.{end};
ghost use Rattle.rights_types.specs.Messages.{AskValue};
ghost use Rattle.rights_protocol.specs.Retiring.{numbers_in};
ghost use Rattle.rights_book.specs.Books.{sites, peer};
ghost use Rattle.transfer_manager.specs.Managers.{sites as asked_sites, SameSystem};
ghost use Rattle.transfer_manager.specs.AskAnswers.{IsAnswered};
ghost use Rattle.site_core.specs.Ledgers.{CanInherit, ClosingKeeps, ApplyKeeps, owed_by, number_of_taking};
ghost use Rattle.site_core.specs.Desks.{after_grant, after_grants};
ghost use Rattle.site_core.specs.Faults.{has_closed, close_fault, heir_fault, DeskRefuses};
ghost use Rattle.site_core.specs.Calls.{DeskApplies, DeskCloses};

use crate::desk::Desk;
use crate::fault::DeskError;
use rights_types::{Entry, MAX_AMOUNT, Move, OutOfMemory, SiteId};
use std::alloc::Allocator;
use transfer_manager::Manager;

impl<A: Allocator + Copy> Desk<A> {
    /// Applies the origin's next entry, and ends the asks that it grants. If it is a closing entry with a frontier,
    /// what this site gave to the origin beyond its own number in the frontier is reclaimed, by one entry whose number
    /// is returned. Only such an entry allocates.
    pub fn apply<B: Allocator>(
        &mut self,
        origin: SiteId,
        entry: &Entry<B>,
    ) -> Result<Option<u64>, OutOfMemory>
        requires site { origin ≤ sites self.old.ledger.book }
        requires other { origin ≢ self.old.ledger.log.site }
        requires unclosed { (peer self.old.ledger.book origin).log.closed ≡ false }
        requires next { entry.now.prev ≡ (peer self.old.ledger.book origin).log.end }
        requires open { has_closed self.old ≡ false }
        ensures ok { OnOk result (DeskApplies self.old origin entry.now self.new) }
        ensures keeps { OnOk result ((h : DeskApplies self.old origin entry.now self.new)
            → ApplyKeeps self.old.ledger origin entry.now h.entry.between self.new.ledger) }
        ensures number { IfOk result
            (λ n. n ≡ number_of_taking (owed_by self.old.ledger origin entry.now) self.new.ledger.log) }
        ensures err { OnErr result (self.new ≡ self.old) }
        ensures memory { numbers_in entry.now.moves ≡ None → IsOk result }
    {
        let me = self.ledger.log().site();
        let number = self.ledger.apply(origin, entry)?;
        end_asks(&mut self.manager, me, origin, entry.moves());
        Ok(number)
    }

    /// Writes the closing entry, and returns its number. All held rights go to the heir; without one they stay with
    /// the closed site. From then on the site denies asks and answers queries, and applies nothing.
    pub fn close(&mut self, heir: Option<SiteId>) -> Result<u64, DeskError>
        ensures refused { DeskRefuses (close_fault self.old heir) result }
        ensures ok { OnOk result (DeskCloses self.old heir self.new) }
        ensures keeps { OnOk result (ClosingKeeps self.old.ledger heir self.new.ledger) }
        ensures number { IfOk result (λ n. n ≡ end self.new.ledger.log.entries) }
        ensures err { OnErr result (self.new ≡ self.old) }
    {
        if self.ledger.log().closed() {
            return Err(DeskError::Closed);
        }
        if self.queue.waiting() > 0 {
            return Err(DeskError::QueueBusy);
        }
        self.check_heir(heir)?;
        Ok(self.ledger.close(heir)?)
    }

    // The errors of an heir.
    fn check_heir(&self, heir: Option<SiteId>) -> Result<(), DeskError>
        ensures refused { DeskRefuses (heir_fault self.now heir) result }
        ensures ok { IfOk result (λ _. IfSome heir (CanInherit self.now.ledger.book)) }
    {
        let Some(peer) = heir else {
            return Ok(());
        };
        let book = self.ledger.book();
        if peer.number() > book.sites() {
            return Err(DeskError::NoSuchSite);
        }
        if peer == book.me() {
            return Err(DeskError::SameSite);
        }
        if book.closed(peer) {
            return Err(DeskError::PeerClosed);
        }
        if book.held() > MAX_AMOUNT {
            return Err(DeskError::HeldTooMuch);
        }
        Ok(())
    }
}

// Ends the asks that these moves of the origin grant.
fn end_asks(manager: &mut Manager, me: SiteId, origin: SiteId, moves: &[Move])
    requires { origin ≤ asked_sites manager.old }
    ensures ended { manager.new ≡ after_grants me origin moves.now manager.old }
    ensures same { SameSystem manager.old manager.new }
    ensures answered { (past : AskValue) → IsAnswered manager.old past → IsAnswered manager.new past }
{
    for m in moves {
        end_ask(manager, me, origin, m);
    }
}

fn end_ask(manager: &mut Manager, me: SiteId, origin: SiteId, m: &Move)
    requires { origin ≤ asked_sites manager.old }
    ensures ended { manager.new ≡ after_grant me origin m.now manager.old }
    ensures same { SameSystem manager.old manager.new }
    ensures answered { (past : AskValue) → IsAnswered manager.old past → IsAnswered manager.new past }
{
    if let Move::Grant {
        peer,
        amount: _,
        ask,
    } = m
    {
        if *peer == me {
            manager.on_grant(origin, *ask);
        }
    }
}
