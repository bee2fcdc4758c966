//! The reply to a client that waits for the outcome of its spend.
ghost use Rattle.std.specs.Prelude.{◌≡◌, ◌+◌, ◌≤◌, [], List, ℕ, length, IfOk, OnOk, OnErr};
ghost use Rattle.line_streams.specs.Waiting.{AddsReply};
ghost use Rattle.site_node.specs.declared.reply.Reply.TheVariants.{Spending as Spends};
ghost use Rattle.site_core.specs.declared.desk.requests.Spending.TheVariants.{Queued as IsQueued};
ghost use Rattle.site_server.specs.Settling.{Settles, SettlesCommand, SettlesKeyedCommand, AsksAgain, still_waits};
ghost use Rattle.site_server.specs.Settling.{is_unknown};

use crate::site::client::SiteClient;
use crate::site::tick_signal::{TickSignal, Woken};
use apply_lanes::DeskNames;
use command_keys::Key;
use line_streams::Replies;
use refusals::Answered;
use reply_texts::REPLY_ROOM;
use request_queue::Status;
use rights_types::OutOfMemory;
use site_core::Spending;
use site_node::{Peers, Reply, answer_reply};
use site_words::DeskCommand;
use std::alloc::Allocator;
use std::sync::Wait;

impl<D: DeskNames, R: Wait, P: Peers + Drop, B: TickSignal + Drop> SiteClient<'_, D, R, P, B> {
    /// Carries out a command, waits for the outcome of a spend that is queued, and adds the reply.
    pub(crate) fn settle_command<A: Allocator>(
        &mut self,
        command: DeskCommand,
        replies: &mut Replies<A>,
    ) -> Result<Answered, OutOfMemory>
        requires { replies.old.part ≡ [] }
        ensures ok { IfOk result (λ how. (text : List ℕ)
            × SettlesCommand (B.has_ended self.old.signal) (B.has_left self.old.signal) D.id self.old.seat command
            (record { text = text; how = how }) self.new.seat
            × AddsReply replies.old replies.new text) }
        ensures short { OnOk result (length replies.new.whole ≤ length replies.old.whole + REPLY_ROOM) }
        ensures err { OnErr result (self.new ≡ self.old) }
        ensures rest { self.new ≡ record self.old { seat = self.new.seat } }
    {
        // Reserved first, so that a command is carried out only if its reply has room.
        replies.reserve(REPLY_ROOM)?;
        // Read before the command, so that no tick after it is missed.
        let seen = self.signal.count();
        let reply = self.act(command);
        let settled = self.settled(reply, seen);
        Ok(answer_reply(replies, settled))
    }

    /// The outcome of a spend that was queued after this number of ticks was seen; otherwise the reply itself.
    fn settled(&mut self, reply: Reply, seen: u64) -> Reply
        ensures settles { Settles (B.has_ended self.old.signal) (B.has_left self.old.signal) D.id self.old.seat reply result self.new.seat }
        ensures rest { self.new ≡ record self.old { seat = self.new.seat } }
    {
        match reply {
            Reply::Spending(Spending::Queued(ticket)) => self.outcome(ticket, seen),
            _ => reply,
        }
    }

    /// Waits, tick by tick, for the outcome of the spend with this ticket, and reads it, which frees its slot. If the
    /// client leaves, the spend is cancelled, which frees it too. At the end of the site the reply is that it is queued.
    #[tactic(auto, using(crate::proofs::SettleLaws::tells_outcome, crate::proofs::SettleLaws::waits_again, crate::proofs::SettleLaws::none_waited, crate::proofs::SettleLaws::ends_wait, crate::proofs::SettleLaws::still_queued))]
    fn outcome(&mut self, ticket: u64, mut seen: u64) -> Reply
        ensures settles { Settles (B.has_ended self.old.signal) (B.has_left self.old.signal) D.id self.old.seat (Spends (IsQueued ticket)) result
            self.new.seat }
        ensures rest { self.new ≡ record self.old { seat = self.new.seat } }
    {
        'ticks: for _ in self.rt.forever() {
            match self.signal.next(seen) {
                Woken::ByTick(count) => seen = count,
                Woken::ByEnd => return Reply::Spending(Spending::Queued(ticket)),
                Woken::ByClient => return self.act(DeskCommand::Cancel(ticket)),
            }
            let reply = self.act(DeskCommand::Outcome(ticket));
            if !is_waiting(reply) {
                return reply;
            }
        }
        unreachable!()
    }

    /// Carries out a command under a key, waits for the outcome of a spend that is queued, and adds the reply.
    pub(crate) fn settle_keyed<A: Allocator>(
        &mut self,
        key: Key,
        command: DeskCommand,
        replies: &mut Replies<A>,
    ) -> Result<Answered, OutOfMemory>
        requires { replies.old.part ≡ [] }
        ensures ok { IfOk result (λ how. (text : List ℕ)
            × SettlesKeyedCommand (B.has_ended self.old.signal) (B.has_left self.old.signal) D.id self.old.seat key command
            (record { text = text; how = how }) self.new.seat
            × AddsReply replies.old replies.new text) }
        ensures short { OnOk result (length replies.new.whole ≤ length replies.old.whole + REPLY_ROOM) }
        ensures err { OnErr result (self.new ≡ self.old) }
        ensures rest { self.new ≡ record self.old { seat = self.new.seat } }
    {
        // Reserved first, so that a command is carried out only if its reply has room.
        replies.reserve(REPLY_ROOM)?;
        // Read before the command, so that no tick after it is missed.
        let before = self.signal.count();
        let same_key = key;
        let same_command = command;
        let answer = self.act_keyed(key, command);
        let waited = self.settled(answer, before);
        let told = self.asked_again(same_key, same_command, waited);
        Ok(answer_reply(replies, told))
    }

    /// What a command under a key is told after this reply: where somebody else was told the outcome, that of its repeat.
    fn asked_again(&mut self, key: Key, command: DeskCommand, waited: Reply) -> Reply
        ensures again { AsksAgain (is_unknown waited) D.id self.old.seat key command waited result self.new.seat }
        ensures rest { self.new ≡ record self.old { seat = self.new.seat } }
    {
        if is_unknown(&waited) {
            self.act_keyed(key, command)
        } else {
            waited
        }
    }
}

/// Whether there is no outcome, according to this reply.
fn is_unknown(reply: &Reply) -> bool
    ensures { result ≡ is_unknown reply.now }
{
    match reply {
        Reply::Outcome(Status::Unknown) => true,
        _ => false,
    }
}

/// Whether a spend still waits, according to this reply.
fn is_waiting(reply: Reply) -> bool
    ensures { result ≡ still_waits reply }
{
    match reply {
        Reply::Outcome(Status::Waiting) => true,
        _ => false,
    }
}
