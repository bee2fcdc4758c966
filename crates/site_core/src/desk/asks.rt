//! Asks for rights: those of this site, and those of others.
ghost use Rattle.std.specs.Prelude.{◌≡◌, ℕ, ◌<◌, ◌≤◌, true, List, None, Some, IfOk, IsOk, OnOk, OnErr};
ghost use Rattle.std.specs.Option.{option_map};
ghost use Rattle.transfer_manager.specs.SiteSets.{has_site};
ghost use Rattle.rights_types.specs.Messages.MessageValue.{AnAsk, ADenial};
ghost use Rattle.entry_codec.specs.Spelling.{Spells};
ghost use Rattle.rights_book.specs.Books.{sites};
ghost use Rattle.transfer_manager.specs.Managers.{asks, outstanding_ask, ended};
ghost use Rattle.transfer_manager.specs.AskAnswers.{IfNew, IsWithin, noted};
ghost use Rattle.transfer_manager.specs.declared.answer.AskAnswer.TheVariants.{Grant as Grants};
ghost use Rattle.entry_codec.specs.Spelling.{LineOf};
ghost use Rattle.site_core.specs.Calls.{DeskPlans, DeskPlansBeside, available, answer_of, is_ignored, denial, denial_of};
ghost use Rattle.site_core.specs.Calls.{DeskAnswers, AnswerKeeps};

use crate::desk::Desk;
use crate::line::Line;
use entry_codec::write_line;
use rights_types::{Amount, Ask, AskNumber, Deny, Message, Move, OutOfMemory, SiteId};
use std::alloc::{Allocator, Global};
use transfer_manager::{AskAnswer, SiteSet};

/// The answer of a desk to an ask.
#[derive(Drop)]
pub struct AskReply<A: Allocator = Global> {
    pub answer: AskAnswer,
    /// The number of the entry that grants, if the answer is Grant.
    pub number: Option<u64>,
    /// The line of the denial, if the answer is a denial, new or repeated.
    pub line: Option<Line<A>>,
}

impl<A: Allocator + Copy> Desk<A> {
    /// Ends asks to peers that are known to have closed, and asks peers for the rights that waiting spends lack.
    /// Returns how many were asked; `ask_line` returns the line for each.
    pub fn plan(&mut self) -> u64
        ensures { DeskPlans self.old result self.new }
    {
        self.manager.plan(self.ledger.book(), &self.queue)
    }

    /// The same beside peers of which nothing is heard: a silent peer is not asked anew, and what it was asked for is
    /// not expected of it, so that the others are asked. The ask to it stays outstanding, and so does its line.
    pub fn plan_beside(&mut self, silent: &SiteSet) -> u64
        ensures { DeskPlansBeside (has_site silent.now) self.old result self.new }
    {
        self.manager
            .plan_beside(self.ledger.book(), &self.queue, silent)
    }

    /// The line of the outstanding ask to that peer; None if none is outstanding.
    pub fn ask_line(&self, peer: SiteId) -> Result<Option<Vec<u8, A>>, OutOfMemory>
        ensures line { IfOk result
            (λ line. LineOf (λ l. l.items)
            (option_map (λ ask. AnAsk ask) (outstanding_ask self.now.manager peer)) line) }
        ensures memory { outstanding_ask self.now.manager peer ≡ None → IsOk result }
    {
        let Some(ask) = self.manager.outstanding(peer) else {
            return Ok(None);
        };
        let message: Message<A> = Message::Ask(ask);
        Ok(Some(write_line(self.alloc, &message)?))
    }

    /// Answers the ask of a peer. A grant is written at once, and its entry records that the ask was answered; the
    /// same ask is never granted again. A closed site denies.
    pub fn on_ask(&mut self, ask: &Ask) -> Result<AskReply<A>, OutOfMemory>
        requires site { ask.now.asker ≤ sites self.old.ledger.book }
        requires mine { ask.now.asked ≡ self.old.ledger.log.site }
        ensures answer { IfOk result (λ reply. reply.answer ≡ answer_of self.old ask.now) }
        ensures ok { IfOk result (λ reply. DeskAnswers self.old ask.now reply.answer reply.number self.new) }
        ensures keeps { IfOk result (λ reply. AnswerKeeps self.old ask.now reply.answer self.new) }
        ensures line { IfOk result (λ reply. LineOf (λ (l : List ℕ). l) (denial_of ask.now reply.answer) reply.line) }
        ensures err { OnErr result (self.new ≡ self.old) }
        ensures memory { is_ignored (answer_of self.old ask.now) ≡ true → IsOk result }
    {
        let answer = self.manager.on_ask(ask, self.available(ask.asker()));
        let (number, line) = match answer {
            AskAnswer::Grant(amount) => (Some(self.grant(ask, amount)?), None),
            AskAnswer::Deny | AskAnswer::RepeatedDeny => (None, Some(self.deny(ask, answer)?)),
            AskAnswer::Repeated | AskAnswer::OldAsk => (None, None),
        };
        Ok(AskReply {
            answer,
            number,
            line,
        })
    }

    /// That peer denied the ask of this number. Only the outstanding ask ends by this.
    pub fn on_deny(&mut self, peer: SiteId, ask: AskNumber)
        requires site { peer ≤ sites self.old.ledger.book }
        ensures { self.new ≡ record self.old { manager = ended self.old.manager peer ask } }
    {
        self.manager.on_deny(peer, ask);
    }

    // The rights that an ask of the peer can be granted: what is held beyond the waiting spends; 0 if the log is
    // closed or full, or the peer is known to have closed.
    fn available(&self, peer: SiteId) -> u64
        ensures value { result ≡ available self.now peer }
        ensures same_site { self.now.ledger.book.me ≡ self.now.ledger.log.site }
    {
        if self.ledger.log().closed() || self.ledger.book().closed(peer) || !self.has_room(1) {
            return 0;
        }
        self.spare()
    }

    // Writes the grant, and records it as answered. Returns the number of its entry.
    fn grant(&mut self, ask: &Ask, amount: Amount) -> Result<u64, OutOfMemory>
        requires site { ask.now.asker ≤ sites self.old.ledger.book }
        requires mine { ask.now.asked ≡ self.old.ledger.book.me }
        requires answer { answer_of self.old ask.now ≡ Grants amount }
        requires within { IsWithin (Grants amount) ask.now (available self.old ask.now.asker) }
        ensures ok { IfOk result (λ number. DeskAnswers self.old ask.now (Grants amount) (Some number) self.new) }
        ensures keeps { OnOk result (AnswerKeeps self.old ask.now (Grants amount) self.new) }
        ensures err { OnErr result (self.new ≡ self.old) }
    {
        let moves = [Move::Grant {
            peer: ask.asker(),
            amount,
            ask: ask.ask(),
        }];
        let number = self.ledger.write(&moves, None)?;
        self.manager.note_answer(ask, AskAnswer::Grant(amount));
        Ok(number)
    }

    // Records the denial, unless it is repeated. Returns its line.
    fn deny(&mut self, ask: &Ask, answer: AskAnswer) -> Result<Line<A>, OutOfMemory>
        requires site { ask.now.asker ≤ sites self.old.ledger.book }
        requires new { IfNew answer ((asks self.old.manager ask.now.asker).last_answered < ask.now.ask) }
        ensures ok { OnOk result (self.new ≡ record self.old { manager = noted self.old.manager ask.now answer }) }
        ensures line { IfOk result (λ line. Spells (ADenial (denial ask.now)) line) }
        ensures err { OnErr result (self.new ≡ self.old) }
    {
        let line = denial_line(self.alloc, ask)?;
        self.manager.note_answer(ask, answer);
        Ok(Line::new(line))
    }
}

fn denial_line<A: Allocator + Copy>(alloc: A, ask: &Ask) -> Result<Vec<u8, A>, OutOfMemory>
    ensures { IfOk result (λ line. Spells (ADenial (denial ask.now)) line.items) }
{
    let message: Message<A> = Message::Deny(Deny::known(ask.asked(), ask.asker(), ask.ask()));
    write_line(alloc, &message)
}
